//! The tables of an automaton. Re-exports the names of tables, of their images and of records.
//!
//! The definitions to believe are those in `specs/`; those in `specs/inner/` are of private contracts and proofs.
#![tactic(auto)]

mod cells;
mod chains;
mod choice;
mod packer;
mod starts;
mod taken;

pub use chains::chained_tables_tell_the_same;
pub use names::{LeastHits, Record};
pub use packer::{pack, pack_chained};
pub use tables::{
    FEWEST_STATES, ImageFault, ROW_LENGTH, RawTable, are_counts_in_limits, bytes_have_one_outcome,
    from_bytes, tables_have_one_outcome, to_bytes, to_bytes_v1,
};
