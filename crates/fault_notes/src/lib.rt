//! What is said about a refusal below its first line: of a profile's text, of an image, and of an import, in sentences and with the
//! part of the text about the place.
//!
//! Each function returns only the notes, from what the command has read. The definitions to believe are those in `specs/`.
#![tactic(auto)]

mod all_imports;
mod grammar;
mod image;
mod import;
mod profile;
mod sentence;
#[cfg(test)]
mod tests;
mod variable;

pub use all_imports::import_all_notes;
pub use image::image_notes;
pub use import::import_notes;
pub use profile::profile_notes;
