//! Texts of AppArmor profiles as pieces: uses of variables, and the bytes between them (apparmor.d(5), "Variables"); and paths
//! with one slash for each run of slashes.
//!
//! The definitions to believe are those in `specs/`; those in `specs/laws/` are proved facts about them.
#![tactic(auto)]

mod laws;
mod pieces;
mod slashes;

pub use laws::{one_slash_stays, texts_are_their_pieces};
pub use pieces::{Piece, split_piece};
pub use slashes::one_slash;
