//! The variables of AppArmor profile texts (apparmor.d(5), "Variables"): the texts that each stands for, and their substitution
//! in paths. Each list of texts is made once, and none is made that is too long.
//!
//! The definitions to believe are those in `specs/`; those in `specs/inner/` are of private contracts and
//! proofs.
#![tactic(auto)]

mod added_bytes;
mod counts;
mod declared;
mod fault;
mod laws;
mod lists;
mod made_lists;
mod one_list;
mod placement;
mod refusal;
mod sink;
mod texts;
mod variables;

pub use fault::ExpandFault;
pub use laws::{
    limits_are_of_whole_lists, lists_need_few_levels, one_count, one_list_or_one_problem,
    one_text_or_one_problem,
};
pub use lists::Lists;
pub use texts::{MOST_BYTES, MOST_TEXTS};
pub use variables::Variable;
