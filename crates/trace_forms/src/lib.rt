//! Commands of a program by their forms: names, options, arguments and texts of help, as the parser of `clap` is given them.
//!
//! The definitions to believe are those in `specs/`.
#![tactic(auto)]

mod arguments;
mod forms;
mod parser;

pub use forms::{ArgumentForm, CommandForm, NumberOption, OptionForm, Wants};
pub use parser::{command_of, with_commands};
