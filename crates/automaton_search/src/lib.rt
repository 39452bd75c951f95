//! What names lead three automata to, all at once, each with the least name that leads there: shorter names are less, and names
//! of one length are in byte order begun at `a`. By it a question about all names is a question about a list.
//!
//! The definitions to believe are those in `specs/`; those in `specs/inner/` are of private contracts and proofs.
#![tactic(auto)]

mod fault;
mod laws;
mod states;
mod steps;
mod visit_name;
mod visits;
mod walk;

pub use fault::SearchFault;
pub use laws::names_are_in_one_order;
pub use states::States;
pub use visits::{MOST_VISITS, Visits};
