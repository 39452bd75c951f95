//! The command line of `aa-trace`: the words that it is called with, and what they ask for.
//!
//! The definitions to believe are those in `specs/`; those in `specs/inner/` are of private contracts and
//! proofs.
#![tactic(auto)]

mod choice;
mod commands;
mod explain;
mod found;
mod import;
mod line;
mod lines;
mod parser;
mod questions;
mod short;

pub use choice::{Define, ImportChoice, OwnerRules};
pub use import::{Account, ImportOptions};
pub use line::{Command, Line, LineFault, StormSize, command_line};
pub use questions::{
    AuditQuestion, DiffQuestion, FlattenedQuestion, NameCommand, NameQuestion, NamesQuestion,
    ProfileQuestion,
};
pub use short::spelled_out;
pub use trace_report::Format;
