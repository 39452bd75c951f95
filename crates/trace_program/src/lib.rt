//! What `aa-trace` does with its words, over any streams: `run_words` reads the command line and runs the command's engine.
//! `run_plain` is a second engine of `run`, on a tree in plain memory.
//!
//! The definitions to believe are those in `specs/`.
#![tactic(auto)]

mod import;
mod judgment;
mod name_lists;
mod notes;
mod plain;
mod program;
mod questions;
mod script;
mod steps;
mod storm;
mod test;

pub use plain::run_plain;
pub use program::run_words;
