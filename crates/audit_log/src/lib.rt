//! One line of a kernel's log: which denial of a file it reports, if it reports one.
//!
//! The definitions to believe are those in `specs/`.
#![tactic(auto)]

mod denial;
mod digits;
mod fields;

pub use denial::{Denial, parse_line};
