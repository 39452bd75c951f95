//! The loop that runs names through a table, for the bench: many names in one call, so that the call isn't what is timed; and
//! one name through an image.
//! It is no part of the interface for C (`coqetwal`).
//!
//! The definitions to believe are those in `specs/`.
#![tactic(auto)]

mod image;
mod runs;

pub use runs::Walk;
