//! The words of flattened AppArmor profile texts, as `apparmor_parser --preprocess` prints them: where blanks, words, statements
//! and conditions end, and what the letters of permissions stand for.
//!
//! The definitions to believe are those in `specs/`; those in `specs/inner/` are of private contracts and proofs.
#![tactic(auto)]

mod assignment;
mod bytes;
mod condition;
mod laws;
mod letters;
mod priority;
mod statement;
mod stop;
mod words;

pub use assignment::{after_separators, after_use, is_assignment, line_ends};
pub use condition::{
    after_condition, after_parentheses, after_white, is_allowing_flag, unknown_flag,
};
pub use laws::readings_have_one_answer;
pub use letters::{ExecMode, Letters, letters_of};
pub use priority::{after_priority, after_sign, is_raised};
pub use statement::{after_boolean, after_statement, is_statement};
pub use stop::{Failure, Stop, StopKind, fault_here};
pub use words::{after_blank, after_word, begins_gap, is_path, is_word, letter_word, past_word};
