//! The canonical texts of a profile and of a rule.
//!
//! The definitions to believe are those in `specs/`.
#![tactic(auto)]

mod laws;
mod writer;

pub use laws::{canonical_texts_are_read, rule_texts_are_read};
pub use writer::{write, write_rule};
