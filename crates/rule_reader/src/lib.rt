//! Reading of profile texts: the grammar, the faults of a text by number and place, the profiles that reading makes, and where
//! their rules are in the text. The text of a path alone can be read as its items.
//!
//! The definitions to believe are those in `specs/`: the grammar, its profiles, the places of rules, and which fault is the first.
//! Those in `specs/inner/` are of private contracts and proofs.
#![tactic(auto)]

mod fault;
mod reader;

pub use fault::ReadFault;
pub use reader::{
    one_outcome, profiles_can_be_read, read, read_path, settled_faults_stay, spans_are_read_again,
};
pub use rule_profile::{Profile, Rule, Span};
