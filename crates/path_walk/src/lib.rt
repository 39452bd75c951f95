//! A directory tree, the walk of a path, the tests of changes, and the tree in plain memory and as a row of words, with the rule
//! that such a row keeps. Nothing here is its own: the names are those of `directory_tree`, `path_lookup`, `change_checks`,
//! `plain_tree`, `row_rule`, `tree_row` and `row_plan`.
#![tactic(auto)]

pub use change_checks::{Act, ChangeLook, Move, NewNode, Place, check_change};
pub use directory_tree::{
    Change, Kind, Last, LinkBytes, LinkText, NodeKind, at_most_forty_links, changes_are_answered,
    changes_keep_well_formed, kind_is_of_any_entry, link_keeps_well_formed, links_are_found,
    long_names_are_told, make_keeps_well_formed, more_links_change_no_answer, name_leads_back,
    names_differ, no_directory_is_below_itself, nodes_live_by_their_entries, paths_are_walked,
    plain_trees_are_well_formed, removal_keeps_well_formed, rename_keeps_well_formed,
    renames_move_names, root_alone_is_well_formed, root_is_above_itself, walk_stays_in_tree,
};
pub use path_lookup::{
    EndSlash, Look, NAME_ROOM, Scratch, SplitPath, Torn, WalkFault, find_directory, name_of,
    name_of_place, resolve, split_path,
};
pub use plain_tree::{PlainEntry, PlainTree};
pub use row_plan::{TreeRow, change_has_one_plan, change_row, next_after, plan, set_cells};
pub use row_rule::{
    Busy, Cell, Encoding, KeeperView, Pending, View, WalkerView, agreement_is_of_each_read,
    beginning_keeps_rule, closing_keeps_rule, ending_keeps_rule, entering_keeps_rule,
    first_row_keeps_rule, keeper_fixes_row, keeper_reads_its_row, lending_keeps_rule,
    opening_keeps_rule, parity_tells_changes, reading_keeps_rule, setting_keeps_rule,
    taking_in_keeps_rule, telling_keeps_rule, version_between, version_names_changes, version_of,
    walkers_fit_keeper, writing_sets_its_places,
};
pub use tree_row::{
    Cells, KnownRow, KnownWords, MOST_ENTRIES, Reached, Reading, RowEntry, RowLook, Stop,
    name_and_read, name_known, name_place_and_read, name_place_known, one_row_one_tree,
    opening_row_encodes_root, reach, slots_are_counted, torn_rows_encode_no_tree, walk_and_read,
    walk_known,
};
