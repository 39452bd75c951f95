//! A tree and its policy in one guard, for threads: each thread opens by a session of its own, and waits only where it has met
//! one change after another.
//!
//! [`Guard::open`] answers at once where it can, and else by the keeper's lock; [`Guard::link`] makes hard links; [`Guard::change`]
//! changes the tree, and [`Guard::replace`] and [`Guard::remove`] the policy. A [`Session`] may go to its own thread, and
//! [`Session::try_open`] waits for nobody.
//!
//! The definitions to believe are those of `guarded_row` and `path_session`.
#![tactic(auto)]

mod fault;
mod guard;
mod links;
mod opens;

pub use fault::SessionFault;
pub use guard::Guard;
pub use guarded_row::Row;
pub use path_session::{Answer, LinkAnswer, Session, Unanswered, justify};
