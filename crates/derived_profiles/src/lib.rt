//! Profiles that are made of the rules of another: in reverse order, one rule alone, the allow rules, none; and the profile that
//! allows to read what a pattern matches.
//!
//! The definitions to believe are those in `specs/`.
#![tactic(auto)]

mod pattern;
mod profiles;

pub use pattern::of_pattern;
pub use profiles::{allow_rules, alone, reversed, without_rules};
