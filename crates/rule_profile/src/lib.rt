//! Profiles and their rules: a name, and rules in the order of the text, each of which can be written as a text and read again.
//! Their limits, and where a rule is in the text that it was read from.
//!
//! The definitions to believe are those in `specs/`: what a rule and a profile are to their readers, the profiles
//! that some text is read as, and the limits.
#![tactic(auto)]

mod profile;

pub use profile::{LONGEST_PROFILE_NAME, MOST_NESTED, MOST_RULES, Profile, Rule, Span};
