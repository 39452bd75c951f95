//! What the rules of a text say about a name, and why: for each permission the least rule that hits, where it is in the text and
//! how it is written; and for a text that is refused, the line with its fault.
//!
//! The definitions to believe are those in `specs/`.
#![tactic(auto)]

mod advice;
mod explanation;
mod hits;
mod laws;
mod place;
mod reason;
mod refusal;
mod window;

pub use explanation::{explain, reason_lines, reason_text, rule_place};
pub use laws::{explanations_are_right, reasons_are_right, verdicts_agree_with_reasons};
pub use place::{Place, place_at};
pub use reason::{Reason, reason_of};
pub use refusal::{fault_lines, fault_lines_from, named};
pub use window::place_lines;
