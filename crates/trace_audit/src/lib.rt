//! The command `audit`: for each denial of a file that a kernel's log reports, what the rules of its profile say now, and the rule
//! that would allow it; over any streams.
//!
//! The definitions to believe are those in `specs/`; those in `specs/inner/` are of private contracts and proofs.
#![tactic(auto)]

mod added;
mod allowing;
mod answer;
mod asked;
mod audit_command;
mod groups;
mod known;
mod laws;
mod lines;
mod lookup;
mod rows;
mod texts;
mod values;

pub use audit_command::audit;
pub use laws::added_rules_take_their_name;
