//! Questions about all names, as commands: whether a pattern has a name that a profile allows something to, or one that it doesn't,
//! and what only one of two profiles allows.
//!
//! The definitions to believe are those in `specs/`; those in `specs/inner/` are of private contracts and proofs.
#![tactic(auto)]

mod answer;
mod changes;
mod comparison;
mod difference;
mod objects;
mod questions;
mod report;
mod search_command;
mod shown;
mod sides;

pub use difference::differ;
pub use question_answers::{Quantifier, Side, Witnesses};
pub use report::Report;
pub use search_command::search;
