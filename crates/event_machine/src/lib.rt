//! A machine over events, as definitions and laws: opens by any number of sessions, together with one keeper of the tree and
//! publications of policy, in every order of their steps. The functions of the laws do nothing: each stands for its contract.
//! [`EventMachine`] is what code that takes the events promises.
//!
//! The definitions to believe are those in `specs/`.
#![tactic(auto)]

mod event;
mod laws;
mod machine;

pub use event::{Event, StepFault};
pub use laws::{
    answers_are_right, answers_are_the_only_ones, calls_are_answered, legal_events_take_memory,
    listed_answers_are_right, one_call_at_a_time, runs_do_what_events_say, runs_keep_rule,
    steps_go_on_runs, steps_keep_rule, versions_never_fall,
};
pub use machine::EventMachine;
