//! Scripts of events: the lines of a script of commands, each done whole, and lines for single events of sessions, of the keeper
//! and of the policy. [`run_steps`] is their engine, over any machine that takes events.
//!
//! The definitions to believe are those in `specs/`; those in `specs/inner/` are of private contracts and proofs.
#![tactic(auto)]

mod actions;
mod calls;
mod changes;
mod command;
mod laws;
mod lines;
mod numbers;
mod publication;
mod steps;

pub use command::{StepCommand, StepKind, parse_step_line};
pub use laws::step_scripts_end_as_they_stop;
pub use steps::run_steps;
