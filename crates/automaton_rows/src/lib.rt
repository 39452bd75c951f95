//! Deterministic automata over bytes, as tables: for each state a row of ranges of bytes, each range with one target, and a record of
//! least hits.
//!
//! The definitions to believe are those in `specs/`: an automaton is its rows of 256 targets (`Automata`), and ranges stand for such
//! rows (`Rows`).
#![tactic(auto)]

mod dfa;
mod fault;
mod range;

pub use dfa::{Dfa, MOST_SETS};
pub use fault::CompileFault;
pub use range::{TargetRange, head, rest_after};
