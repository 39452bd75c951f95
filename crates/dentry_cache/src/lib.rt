//! A directory tree as a row of words that threads share: one keeper changes it, and walkers read it concurrently, without a
//! lock. The first word is the count: two for each change that was made, plus one while a change is open. The cells of the row
//! follow.
//!
//! The definitions to believe are those in `specs/` itself, and those of the crates below; the ones in `specs/inner/` are of private
//! contracts and proofs. Opens concurrently with the keeper cite `specs/Walks.antt` alone.
#![tactic(auto)]

mod changes;
mod keeper;
mod kept_row;
mod laws;
mod look;
mod refusal;
mod rule;
mod steps;
mod stopped;
mod tally;
mod walker;

pub use keeper::{Keeper, KeeperLook};
pub use kept_row::KeptRow;
pub use laws::walkers_write_nothing;
pub use refusal::NoSeat;
pub use row_rule::Busy;
pub use stopped::StoppedKeeper;
pub use walker::{Attempt, Walker};
