//! What is said about a script below the first line of its answers: where the text of a policy has a fault, which word isn't
//! understood of a line that is no command, and why, and which line first has a control byte in a word.
//!
//! [`script_notes`] returns only the notes, from the script that was read. The definitions to believe are those in `specs/`.
#![tactic(auto)]

mod control;
mod forms;
mod laws;
mod line;
mod misfit;
mod notes;
mod place;
#[cfg(test)]
mod tests;
mod text;

pub use laws::{carets_are_below_words, what_is_said_is_so};
pub use line::Script;
pub use notes::script_notes;
