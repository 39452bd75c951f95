//! How commands end: exit statuses, why a command has no answer and how that is reported, and what goes to the output streams;
//! and the format that an answer is written in.
//!
//! The definitions to believe are those in `specs/`.
#![tactic(auto)]

mod fault;
mod format;
mod laws;
mod reader;
mod reports;
mod status;

pub use fault::Fault;
pub use format::Format;
pub use laws::{commands_end_as_they_are_to, questions_end_as_they_are_answered, zero_is_done};
pub use reader::{ask_of, asked_by, read_all};
pub use reports::{fail, write_answer, write_finding, write_through};
pub use status::Status;
