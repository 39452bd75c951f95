//! Many names of one text run through a table or an image in one call, side by side where that is faster.
//!
//! The definitions to believe are those in `specs/`; those in `specs/inner/` are of private contracts and proofs.
#![tactic(auto)]

mod batches;
mod seats;

pub use batches::{are_offsets, run_names, run_names_by_image};
