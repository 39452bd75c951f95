//! Opens by sessions in threads, timed: of one file while a keeper renames or a publisher replaces the profile (`time_opens`), and
//! of the same files again and again, by sessions that keep verdicts and by ones that keep none (`time_kept`).
#![tactic(auto)]

mod kept;
mod opens;
mod profiles;
mod scene;
mod threads;
mod tree;

pub use kept::time_kept;
pub use profiles::{compiled, stage, stage_removal};
pub use threads::time_opens;
