//! The keeper of a row of words in plain memory: it opens a change of the tree, sets one cell of its plan at a time, and closes
//! the change. Its view is a capacity and a view of `row_rule`.
//!
//! The definitions to believe are those in `specs/`, and those of the crates below; those in `specs/inner/` are of
//! private contracts and proofs.
#![tactic(auto)]

mod keeper;
mod open_change;
mod refusal;

pub use directory_tree::TreeHistory as History;
pub use keeper::SteppedKeeper;
pub use refusal::NotNow;
