//! Flattened AppArmor profile texts, as `apparmor_parser --preprocess` prints them, cut into items and parts: each byte of the
//! text is in one part, which says what it is there for. What the items mean is for others to say.
//!
//! The definitions to believe are those in `specs/`; those in `specs/inner/` are of private contracts and proofs.
#![tactic(auto)]

mod assignment;
mod header;
mod laws;
mod part;
mod reader;
mod rule;
mod statement;
mod text;

pub use laws::{items_are_the_text, texts_have_one_outcome};
pub use part::{Item, ItemKind, Part, PartKind};
pub use text::{ItemsRead, read_items};
