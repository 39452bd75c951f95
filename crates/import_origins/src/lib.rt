//! Where the rules of an imported profile come from: places of a flattened text by line and column, the files that it names where
//! they begin, a map of a profile's rules to both, and what the rules say about a name with the places of those that decide.
//!
//! The definitions to believe are those in `specs/`; those in `specs/inner/` are of private contracts and proofs.
#![tactic(auto)]

mod explanation;
mod included;
mod map;
mod objects;
mod places;
mod put;

pub use explanation::origin_explanation;
pub use included::IncludedFiles;
pub use map::map_lines;
pub use objects::origin_object;
pub use places::{Places, push_place};
pub use put::push_shown;
