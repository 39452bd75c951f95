//! The library for C: what `image_judge` answers, exported. `include/coqetwal.h` declares these functions, and has what holds an
//! image.
//!
//! To be believed are the definitions of `image_judge`, and that each function here has the clause of the one that it calls.
#![tactic(auto)]

mod exports;

pub use image_judge::{Answer, Counts, Fault};
