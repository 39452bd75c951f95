//! The laws of imports: each text has one outcome; the spans are the text; what is imported can be read; where nothing
//! changes for the chosen subject, the imported profile allows it just what AppArmor's rules do; and what was imported is
//! imported as itself, since the canonical text of a profile, read as a flattened profile text, has the items of its rules.
//! The functions do nothing: each exists for its contract.
//!
//! The definitions to believe are those in `specs/`, and those of `import_profile`.
#![tactic(auto)]

mod again;
mod canonical;
mod meaning;
mod outcomes;

pub use again::imports_are_imported_as_themselves;
pub use canonical::{canonical_letters_are_read, canonical_texts_have_their_items};
pub use meaning::{
    exact_imports_say_the_same, exact_imports_say_the_same_to_the_other,
    imported_rules_are_by_braces, imported_rules_are_reported_in_place, imports_are_restated_rules,
};
pub use outcomes::{imports_can_be_read, spans_are_the_text, texts_have_one_import};
