//! Texts that command lines name: the files of a file system, or what stands for them in a test.
//!
//! The definitions to believe are those in `specs/`.
#![tactic(auto)]

mod files;
mod given;
mod late;
mod late_new;
mod texts;

pub use files::SystemFiles;
pub use given::{GivenText, GivenTexts};
pub use late::LateText;
pub use late_new::LateNewText;
pub use texts::NamedTexts;
