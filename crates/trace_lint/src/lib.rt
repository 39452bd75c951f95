//! `lint`, as a command: the rules of a profile that decide nothing, and the letters of the others that decide nothing, with the
//! rules that stand in for them.
//!
//! The definitions to believe are those in `specs/`; those in `specs/inner/` are of private contracts and proofs.
#![tactic(auto)]

mod decisions;
mod findings;
mod laws;
mod lines;
mod lint_command;
mod parts;
mod questions;
mod texts;
mod values;

pub use laws::{
    idle_parts_are_reported, lines_warn_of_idle_stand_ins, one_lint, reported_parts_are_idle,
};
pub use lint_command::lint;
