//! Profiles made of parts that were not read from a text: whether items are a path as the reader makes them, copies of paths and
//! items, and a profile of a name and rules, which passes the reader's tests.
//!
//! Paths made to begin with a slash: one whose items begin with a group becomes paths that match the same names. Besides, tests
//! of what AppArmor and this language read in two ways: groups of one alternative, and points of a path's text.
//!
//! The definitions to believe are those in `specs/`, and those of `rule_reader`; those in `specs/inner/` are of private contracts
//! and proofs.
#![tactic(auto)]

mod alike;
mod choices;
mod copies;
mod laws;
mod leads;
mod path_tests;
mod place;
mod profiles;
mod shapes;

pub use alike::is_read_alike;
pub use choices::groups_have_alternatives;
pub use copies::{copy_of, put_copies};
pub use laws::{led_paths_take_the_same, no_path_is_lost};
pub use leads::led;
pub use path_tests::is_path;
pub use profiles::{is_name, path_of, profile_of};
