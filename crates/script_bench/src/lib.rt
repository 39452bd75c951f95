//! What a script works on: a tree and the published profiles, in one thread.
//!
//! [`TreeBench`] is a [`Bench`] over any tree that can be changed, tested and looked at; [`PlainBench`] is the one over a tree
//! in plain memory. [`SessionBench`] answers as sessions do: it owns a keeper, a publisher and one session.
//!
//! The definitions to believe are those in `specs/`; those in `specs/inner/` are of private contracts and proofs.
#![tactic(auto)]

mod laws;
mod plain;
mod publication;
mod session_bench;
mod session_work;
mod tree;
mod tree_bench;
mod tree_work;

pub use laws::{changes_are_made_or_refused, publications_are_told_apart};
pub use mediation::{Answer, Bench, JudgedTree, LinkAnswer, replacement};
pub use session_bench::SessionBench;
pub use tree::BenchTree;
pub use tree_bench::{PlainBench, TreeBench};
