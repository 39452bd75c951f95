//! Lines of tests: commands of scripts, with words in quotes, questions about names, and expectations of answers.
//!
//! The definitions to believe are those in `specs/`; those in `specs/inner/` are of private contracts and proofs.
#![tactic(auto)]

mod laws;
mod line;
mod quotes;
mod rows;

pub use laws::words_without_quotes_are_separated_by_blanks;
pub use line::{Asked, Question, TestCommand, TestKind, parse_test_line};
pub use quotes::quoted_words;
pub use rows::{lines_are_read, quotes_are_read};
