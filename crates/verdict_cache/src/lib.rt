//! Verdicts that were given on opens, kept for the same question: what is found was kept under the same path, profile and
//! permissions, and at the same versions of the tree and of the policy.
//!
//! The definitions to believe are those in `specs/`.
#![tactic(auto)]

mod bytes;
mod cache;
mod judged;
mod key;
mod laws;
mod question;

pub use cache::VerdictCache;
pub use judged::Found;
pub use laws::{
    entries_are_bounded, entries_stay, keeps_are_found, looks_change_no_answer, questions_are_equal,
};
pub use question::Question;
