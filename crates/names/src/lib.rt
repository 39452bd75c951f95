//! What all the crates name alike: the permissions of file rules, verdicts and the records that determine them, the error
//! numbers of path calls, and checked paths.
//!
//! Nothing here allocates memory.
//!
//! The definitions to believe are those in `specs/`.
#![tactic(auto)]

mod errors;
mod judgment;
mod kind;
mod laws;
mod limits;
mod paths;
mod permissions;
mod record;
mod split;
mod verdict;

pub use errors::{Errno, NoMemory};
pub use judgment::{Grounds, grounds_of, told};
pub use kind::RuleKind;
pub use laws::{
    components_are_parts, components_of_joined, components_of_paths, equal_records_are_one,
    grounds_have_one_verdict, letters_read_again, one_letter_each, paths_are_names,
    permissions_are_numbered, records_are_their_hits, records_tell_one_verdict, who_writes_appends,
};
pub use limits::{LONGEST_COMPONENT, LONGEST_LINK_TEXT, LONGEST_PATH, MOST_CHANGES};
pub use paths::{Components, Path, Slash, has_long_component, split_component};
pub use permissions::{Permission, Perms};
pub use record::{LeastHits, Record};
pub use split::{Separator, skip, split_at};
pub use verdict::Verdict;
