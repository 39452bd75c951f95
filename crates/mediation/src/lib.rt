//! Judged opens and links, independent of who asks for them: the published policy as a list of deeds, the answers to an open
//! and to a judged link, and the functions that judge over any look at a tree. [`link_by`] makes a judged link in any
//! [`JudgedTree`]. [`Bench`] is what a script works on: a tree and a policy.
//!
//! [`Policy`] is the published profiles with one owner, in plain memory: a map from names to shares of profiles, and how many
//! changes made it. A publication is made whole or not at all: its outcome is built next to the old map, and then replaces it.
//!
//! The definitions to believe are those in `specs/`; those in `specs/inner/` are of private contracts and
//! proofs.
#![tactic(auto)]

mod answer;
mod bench;
mod laws;
mod links;
mod made_links;
mod opens;
mod policy;
mod policy_laws;
mod profiles;
mod publication;
mod published_profiles;
mod tree;

pub use answer::{Answer, LinkAnswer, answer_to_open};
pub use bench::Bench;
pub use laws::{tables_of_rules_judge_as_their_rules, told_is_the_one_verdict};
pub use links::{JudgedLink, judge_names};
pub use made_links::link_by;
pub use opens::{Judged, Reached, can_be_asked, judge_file, reach_file, reach_path};
pub use policy::Policy;
pub use policy_laws::last_change_of_a_name_stands;
pub use profiles::judge_name;
pub use publication::replacement;
pub use tree::JudgedTree;
