//! What each rule of a profile decides: the permissions that some name is allowed, or isn't, because of this rule. One rule that
//! decides nothing can be left out, and each name is allowed the same. After that, another may decide what both of them allowed:
//! one of those that stand in for the rule.
//!
//! The definitions to believe are those in `specs/`; those in `specs/inner/` are of private contracts and proofs.
#![tactic(auto)]

mod candidates;
mod decider;
mod influence;
mod laws;
mod notes;
mod numbers;
mod pair;
mod substitutes;

pub use influence::decided;
pub use laws::{
    idle_rule_is_left_out, idle_rules_have_stand_ins, lone_hits_decide,
    no_rule_decides_and_is_idle, one_list_of_stand_ins, others_keep_their_numbers,
    reversed_rules_hit,
};
pub use pair::RulePair;
pub use substitutes::{IdleCase, stand_ins};
