//! A row's keeper under a lock, for the sessions of many threads: opens that take the lock only where they met one change after
//! another, and what waits for it.
//!
//! The definitions to believe are those in `specs/`, and those of `path_session`.
#![tactic(auto)]

mod guarded;
mod links;
mod opens;
mod row;
mod tries;

pub use guarded::GuardedRow;
pub use path_session::{Answer, LinkAnswer, Session, Unanswered};
pub use row::{Row, RowKeeper};
