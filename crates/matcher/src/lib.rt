//! Profiles compiled to tables, and laws on what these say. What runs names through tables and judges by them is re-exported.
//!
//! The definitions to believe are those in `specs/`.
#![tactic(auto)]

mod compiled;
mod fault;
mod laws;
mod profiles;

pub use compiled::{CompiledProfile, chained_table_of, table_of};
pub use fault::MakeFault;
pub use laws::tables_of_rules_tell_their_verdicts;
pub use profiles::{AnyProfile, PolicyChange};
pub use table_batches::{are_offsets, run_names, run_names_by_image};
pub use table_verifier::{LoadedProfile, judge, record_of_name, run};
