//! The walk of a path and the name of an entry, over any way to read a tree piece by piece.
//!
//! The definitions to believe are those in `specs/`; those in `specs/inner/` are of private contracts and proofs.
#![tactic(auto)]

mod arrival;
mod direct;
mod fault;
mod look;
mod name;
mod place;
mod reached;
mod scratch;
mod target;
mod walk;

pub use fault::WalkFault;
pub use look::{Look, Torn};
pub use name::{NAME_ROOM, name_of};
pub use place::{find_directory, name_of_place};
pub use reached::{Reached, reach};
pub use scratch::Scratch;
pub use target::{EndSlash, SplitPath, split_path};
pub use walk::resolve;
