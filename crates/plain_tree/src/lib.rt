//! A directory tree in plain memory, as a look, and the changes of it.
//!
//! The definitions to believe are those in `specs/`; those in `specs/inner/` are of private contracts and proofs.
#![tactic(auto)]

mod directory;
mod entry;
mod look;
mod plain;
mod store;

pub use entry::PlainEntry;
pub use plain::PlainTree;
