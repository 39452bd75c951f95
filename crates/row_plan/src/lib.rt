//! What a change of the directory tree sets in a row of words: the cells after which the row encodes the tree with the
//! change made.
//!
//! The definitions to believe are those in `specs/Plan.antt` and `specs/Changes.antt`. Those in `specs/Leaves.antt` say
//! word for word which row a change leaves; what they are for is the law `change_has_one_plan`. Those in `specs/inner/` are of
//! private contracts and proofs.
#![tactic(auto)]

mod act;
mod draft;
mod index;
mod laws;
mod memory;
mod planner;
mod slot;
mod tree_rows;
mod vacancy;

pub use laws::change_has_one_plan;
pub use memory::{change_row, set_cells};
pub use planner::{next_after, plan};
pub use tree_rows::TreeRow;
