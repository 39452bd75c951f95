//! The machine over events in code: opens by any number of sessions, concurrently with one keeper of the tree and publications
//! of policy, one event at a time. It takes an event exactly if that is legal.
//!
//! The answers of [`run`] are right in every order of the events: that is its contract, and with it the promise on names,
//! versions and rules holds for every interleaving of these steps.
//!
//! [`Sessions`] are the sessions of a machine, by their numbers. Each step of one of them is a step of the machine over events,
//! and leaves the others as they are.
//!
//! The definitions to believe are those in `specs/`, and those of `event_machine`; those in `specs/inner/` are of
//! private contracts and proofs.
#![tactic(auto)]

mod event_steps;
mod machine;
mod machine_steps;
mod runs;
mod session_laws;
mod session_steps;
mod sessions;

pub use event_machine::{Event, EventMachine, StepFault};
pub use justification::Answer;
pub use machine::Core;
pub use runs::run;
pub use session_laws::{steps_leave_other_sessions, steps_move_their_session};
pub use sessions::Sessions;
