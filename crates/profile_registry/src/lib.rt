//! Published profiles: readers take them while one publisher replaces them, and no reader waits.
//!
//! A [`Publisher`] stages changes and makes them visible all at once. A [`PolicyReader`] answers by what was published at one
//! moment of its call. `crates/mediation_tests/src/registry/server.rt` is a server in small: one publisher, and a reader for each thread.
//!
//! The definitions to believe are those in `specs/`; those in `specs/inner/` are of private contracts and proofs.
#![tactic(auto)]

mod absorption;
mod at_hand;
mod faults;
mod known;
mod look;
mod news;
mod publisher;
mod reader;
mod refusals;
mod steps;
mod store;

pub use faults::{NoEntry, NoSeat};
pub use news::News;
pub use publisher::{PLACES, Publisher};
pub use reader::{PolicyReader, Told};
