//! A profile compiled to an automaton: for every list of bytes the least numbers of the rules that allow and that deny each
//! permission.
//!
//! Each rule has an automaton of its own, and automata are joined two by two.
//!
//! The definitions to believe are those in `specs/`; those in `specs/inner/` are of private contracts and proofs.
#![tactic(auto)]

mod byte_bits;
mod bytes;
mod chart;
mod closures;
mod compilation;
mod laws;
mod leaf;
mod marks;
mod parts;
mod place_bits;
mod sets;
mod subsets;

pub use automaton_rows::{CompileFault, Dfa};
pub use compilation::compile;
pub use laws::{
    least_hits_tell_the_verdict, names_have_one_least_record, rules_have_one_count,
    too_many_states_can_be_told,
};
pub use names::{LeastHits, Record, told};
pub use parts::{parts_are_no_more, parts_make_a_part, whole_parts_are_automata};
