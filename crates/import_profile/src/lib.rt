//! Imports of flattened AppArmor profile texts: one profile of a text restated in this program's language, for one of the two
//! subjects, and the spans of the text: which parts are kept, blank, or reported in an account.
//!
//! The text of a path, with its variables substituted, becomes paths of this language: none where AppArmor and this language
//! may read the text in two ways.
//!
//! The definitions to believe are those in `specs/`; those in `specs/inner/` are of private contracts and proofs.
#![tactic(auto)]

mod added;
mod choice;
mod fault;
mod flattened;
mod gathered;
mod import;
mod laws;
mod one_way;
mod options;
mod path_laws;
mod paths;
mod placed;
mod request;
mod rule;
mod settled;
mod texts;

pub use fault::{ImportFailure, ImportFault};
pub use flattened::FlattenedText;
pub use import::Imported;
pub use options::ImportOptions;
pub use path_laws::{
    imported_paths_can_be_read, imported_paths_take_the_same,
    settled_paths_are_imported_as_they_are, tokens_tell_the_same,
};
pub use paths::imported_paths;
pub use request::import_profile;
