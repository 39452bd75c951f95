//! Answers in JSON: names, rules, reasons and verdicts as values, and the lines that commands write in either format.
//!
//! The definitions to believe are those in `specs/`; those in `specs/inner/` are of private contracts.
#![tactic(auto)]

mod lines;
mod name_values;
mod reasons;
mod verdicts;

pub use lines::{explanation, json_line, match_line, verdict_line};
pub use name_values::name_value;
pub use reasons::{reason_object, reason_word, reasons_array, rule_object};
pub use verdicts::{
    denying_rule, explanation_object, missing_letters, verdict_object, verdict_word,
};
