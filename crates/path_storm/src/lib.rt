//! A storm of opens of one file, in threads, while another thread renames the file's directory and a third one replaces the
//! profile; and whether each answer is right.
//!
//! [`storm_with`] runs it on a guard, and checks each answer against the trail of the changes actually made. [`storm_log`]
//! returns what it did, and [`StormLog::report`] sums it up.
//!
//! The definitions to believe are those in `specs/`, and those of `justification`; those in `specs/inner/` are of private contracts
//! and proofs.
#![tactic(auto)]

mod fault;
mod gate;
mod laws;
mod log;
mod plan;
mod profiles;
mod renames;
mod replacements;
mod setup;
mod storm;
mod threads;
mod worker;

pub use fault::StormFault;
pub use gate::{Gate, Open};
pub use laws::storms_have_one_report;
pub use log::{PolicyLog, SessionLog, StormLog, TreeLog};
pub use path_guard::{Guard, Row};
pub use plan::{Plan, StormReport};
pub use setup::{FILE, PROFILE};
pub use storm::{storm_log, storm_with};
