//! Profiles judged in the plainest way: the verdict on a name by each rule in turn, and the verdict on a hard link by what
//! the rules say of both its names.
//!
//! The definitions to believe are those in `specs/`.
#![tactic(auto)]

mod judgment;
mod links;

pub use judgment::judge_slow;
pub use links::{
    LinkVerdict, allowed_by_themselves, allowed_perms, fine_links_widen_nothing, judge_link,
};
