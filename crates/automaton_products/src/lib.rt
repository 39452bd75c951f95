//! The product of two automata: it runs both at once, and its records have the hits of both.
//!
//! The definitions to believe are those in `specs/Products.antt` and `specs/Numbers.antt`; those in `specs/ProductStates.antt` are
//! of private contracts and proofs.
#![tactic(auto)]

mod joins;
mod laws;
mod pairs;
mod product_states;

pub use laws::equal_pairs_are_one;
pub use pairs::Pair;
pub use product_states::product;
