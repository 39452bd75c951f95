//! One session's call, a step at a time: it begins, reads the policy, the count and the cells that its walk needs, checks the
//! count, and answers. Each step is a step of the machine over events, stated for this session alone.
//!
//! [`WalkWords`] are the words that the walk of one open has read from a row. The walk continues from them: it reads what it
//! needs from the row, until the words decide what the open reaches, or it has read as many as it may.
//!
//! The definitions to believe are those in `specs/`; those in `specs/inner/` are of private contracts and proofs.
#![tactic(auto)]

mod answers;
mod call;
mod call_steps;
mod cells;
mod laws;
mod outcome;
mod reach;
mod session;
mod session_steps;
mod stage;
mod walk;
mod walk_steps;
mod words;

pub use event_machine::StepFault;
pub use justification::Answer;
pub use laws::rule_gives_what_steps_require;
pub use mediation::Policy;
pub use outcome::{Lack, Outcome, Reach};
pub use reach::reach_on;
pub use row_keeper::SteppedKeeper;
pub use session::SteppedSession;
pub use words::WalkWords;
