//! `names`: the names of a list that a profile allows something to, or those that it doesn't, over any streams.
//!
//! The definitions to believe are those in `specs/`; those in `specs/inner/` are of private contracts and proofs.
#![tactic(auto)]

mod choice;
mod laws;
mod list;
mod names_command;
mod selected;

pub use choice::{NameEnd, NamesChoice, Selection};
pub use laws::{lists_are_their_names, names_are_allowed_or_not, written_names_are_a_list};
pub use names_command::select_names;
