//! Scripts: changes of a tree, profiles, and judged opens and links, answered line by line.
//!
//! [`run_script`] is the engine of such scripts. [`follow_script`] follows any script line by line, for a [`LineFollower`] that says
//! what its lines do. What else these are made of is public for engines of other scripts, whose lines and answers are alike.
//!
//! The definitions to believe are those in `specs/`; those in `specs/inner/` are of private contracts and
//! proofs.
#![tactic(auto)]

mod commands;
mod compose;
mod follower;
mod laws;
mod line;
mod reader;
mod rows;
mod script;
mod section;
mod stop;
mod words;

pub use commands::{command_line, print_line};
pub use compose::{
    answer_line, change_of, errno_line, joined, numbered_line, policy_line, refusal_line,
    version_line,
};
pub use follower::{LineFollower, follow_script};
pub use laws::{
    lines_are_read_one_by_one, lines_are_the_text, lines_have_one_text,
    policies_are_closed_by_their_end, scripts_end_as_they_stop,
};
pub use line::{ChangeWords, Command, LineKind, is_comment, is_word, kind_of_words, parse_line};
pub use reader::{LineRead, read_line};
pub use rows::{
    commands_are_answered, links_are_answered, opens_are_answered, policies_are_gathered,
    profiles_are_answered, scripts_stop,
};
pub use script::run_script;
pub use section::Section;
pub use stop::Stop;
pub use words::{Blank, Words, is_blank};
