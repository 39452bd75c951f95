//! Tests: scripts of changes, profiles and judged opens, with questions about names, and with lines that expect the answer of the
//! command before them. [`run_test`] is their engine, over any bench.
//!
//! The definitions to believe are those in `specs/`; those in `specs/inner/` are of private contracts and proofs.
#![tactic(auto)]

mod compose;
mod laws;
mod lines;
mod matching;
mod objects;
mod options;
mod progress;
mod publication;
mod published;
mod questions;
mod reasons;
mod rows;
mod script;

pub use laws::{
    expectations_hold_by_their_answer, own_answers_hold, scripts_are_tests,
    tests_end_as_their_expectations_hold,
};
pub use options::TestOptions;
pub use rows::{expectations_are_told, questions_are_answered};
pub use script::run_test;
