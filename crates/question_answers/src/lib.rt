//! Questions about all names, answered by names: whether a pattern has a name that a profile allows something to, or one that it
//! doesn't, and which names only one of two profiles allows something.
//!
//! The definitions to believe are those in `specs/`; those in `specs/inner/` are of private contracts and proofs.
#![tactic(auto)]

mod alone;
mod cause;
mod laws;
mod least;
mod notes;
mod pass;
mod quantifier;
mod search;
mod side;

pub use alone::differences;
pub use laws::{least_names_are_one_list, least_of_all_comes_first};
pub use least::some_name;
pub use quantifier::{Quantifier, Witnesses};
pub use search::{Finding, find};
pub use side::Side;
