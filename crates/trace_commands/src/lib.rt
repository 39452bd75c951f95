//! The commands that read a whole text or image and then answer: `judge`, `explain`, `compile`, `check` and `match`, over any
//! streams.
//!
//! The definitions to believe are those in `specs/`; those in `specs/inner/` are of private contracts and
//! proofs.
#![tactic(auto)]

mod check_command;
mod compile_command;
mod explain_command;
mod image_reader;
mod judge_command;
mod laws;
mod match_command;
mod quiet;

pub use check_command::check;
pub use compile_command::compile;
pub use explain_command::explain;
pub use judge_command::{can_be_judged, judge};
pub use laws::{
    explain_goes_on_from_judge, images_have_one_answer, images_of_rules_tell_their_verdicts,
    quiet_verdicts_are_those_of_judge,
};
pub use match_command::match_name;
pub use quiet::{judge_quietly, match_quietly};
