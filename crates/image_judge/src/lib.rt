//! An image verified once, and names judged by it with all answers in numbers, as C has them, by any number of threads. Allocates
//! nothing. `coqetwal` exports these functions to C.
//!
//! The definitions to believe are those in `specs/`.
#![tactic(auto)]

mod answer;
mod batch;
mod judgment;
mod laws;
mod permissions;
mod verification;

pub use answer::Answer;
pub use batch::judge_all;
pub use judgment::judge;
pub use laws::numbers_are_sets;
pub use verification::{Counts, Fault, count, verify};
