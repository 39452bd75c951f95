//! The verdicts that one session keeps from call to call, and when it looks for them: always, until too many questions in a row
//! found nothing.
//!
//! The definitions to believe are those in `specs/`, and those of `verdict_cache`.
#![tactic(auto)]

mod kept;
mod misses;

pub use kept::KeptVerdicts;
