//! The tests of the changes of a directory tree: whether a change would be made, and where it acts, or with which error number it
//! is refused. They are written once, over any way to read a tree.
//!
//! The definitions to believe are those in `specs/`.
#![tactic(auto)]

mod act;
mod below;
mod change;
mod laws;
mod link_text;
mod look;
mod place;
mod removal;
mod rename;
mod vacancy;

pub use act::{Act, Move, NewNode};
pub use change::check_change;
pub use laws::{changes_have_one_answer, tested_acts_are_allowed};
pub use look::ChangeLook;
pub use place::Place;
