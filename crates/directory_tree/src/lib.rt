//! A directory tree as the list of its entries: what a walk of a path leads to, the names of entries, what a change makes of
//! the tree or why it is refused, and the laws of all this. The functions of the laws and of the examples do nothing: each
//! exists only for its contract.
//!
//! The definitions to believe are those in `specs/`, worked examples among them.
#![tactic(auto)]

mod change;
mod examples;
mod history;
mod laws;
mod node;

pub use change::{Change, LinkBytes};
pub use examples::{changes_are_answered, long_names_are_told, paths_are_walked};
pub use history::{History, TreeHistory};
pub use laws::{
    at_most_forty_links, changes_keep_well_formed, kind_is_of_any_entry, link_keeps_well_formed,
    links_are_found, make_keeps_well_formed, more_links_change_no_answer, name_leads_back,
    names_differ, no_directory_is_below_itself, nodes_live_by_their_entries,
    plain_trees_are_well_formed, removal_keeps_well_formed, rename_keeps_well_formed,
    renames_move_names, root_alone_is_well_formed, root_is_above_itself, walk_stays_in_tree,
};
pub use names::LONGEST_LINK_TEXT;
pub use node::{Kind, Last, LinkText, NodeKind};
