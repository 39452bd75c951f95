//! Exact questions about whole profiles: whether there is a name that profiles allow something to, or don't, and which is the
//! least. What is answered is complete: where no name is found there is none.
//!
//! The definitions to believe are those in `specs/`; those in `specs/inner/` are of private contracts and proofs.
#![tactic(auto)]

mod answer;
mod comparison;
mod fault;
mod laws;
mod marks;
mod rules;

pub use answer::{Answer, Answers};
pub use comparison::{Comparison, Records};
pub use fault::QuestionFault;
pub use laws::{
    alike_names_have_the_same_hits, one_shortest_name, pattern_rules_allow_what_they_take,
};
pub use rules::CompiledRules;
