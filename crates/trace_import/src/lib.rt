//! The commands `import` and `explain --flattened`: one profile of a flattened AppArmor profile text, or each of them, in this
//! program's language, with an account of what of the text isn't in it unchanged and a map to where its rules come from; or what
//! the rules say about a name, and from where; over any streams. And the lines in which that is reported, or why the text was
//! refused.
//!
//! The definitions to believe are those in `specs/`; those in `specs/inner/` are of private contracts and proofs.
#![tactic(auto)]

mod account;
mod all;
mod command;
mod ending;
mod explain;
mod laws;
mod lines;
mod put;
mod refusal;
mod sums;

pub use account::AccountChoice;
pub use all::import_all;
pub use command::{import, import_with_map};
pub use explain::explain_flattened;
pub use laws::imports_end_as_their_outcome;
pub use lines::push_account_line;
pub use refusal::{RefusalLine, refusal_text};
