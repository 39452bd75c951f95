//! When an answer to an open is right: by the tree and the policy of the versions that it names, whoever found it, and however.
//! [`justify`] tests an answer, afresh, by trees and profiles in plain memory.
//!
//! A [`Trail`] is for many answers to opens of one path with one set of permissions: the outcome of the open in the tree of each
//! version is found once, and kept. [`Trail::justifies`] tests an answer as [`justify`] does, and makes no tree for it.
//!
//! The definitions to believe are those in `specs/`; those in `specs/inner/` are of private contracts and proofs.
#![tactic(auto)]

mod answer;
mod end;
mod justified;
mod laws;
mod outcomes;
mod publication;
mod reach;
mod trail;
mod trail_laws;

pub use answer::Answer;
pub use justified::justify;
pub use laws::{
    a_version_has_one_tree, current_judgment_is_the_answer, judged_is_not_failed,
    justified_answers_stay_justified, one_verdict_is_justified,
};
pub use trail::Trail;
pub use trail_laws::wrong_answers_are_not_justified;
