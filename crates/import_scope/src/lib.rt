//! A flattened AppArmor profile text gone through once: the variables that it declares, its profiles by their full names, and
//! what is wrong with it apart from its grammar.
//!
//! The definitions to believe are those in `specs/`; those in `specs/inner/` are of private contracts and proofs.
#![tactic(auto)]

mod asked_paths;
mod assigned;
mod fault;
mod head;
mod item_words;
mod laws;
mod outline;
mod scope;
mod seen;

pub use assigned::Define;
pub use fault::{ScopeFailure, ScopeFault, ScopeFaultKind};
pub use head::ProfileHead;
pub use laws::{given_values_are_all_there_is, texts_have_one_first_fault};
pub use scope::{Scope, scope_of};
pub use seen::lists_of;
