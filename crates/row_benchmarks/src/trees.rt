//! The trees that are timed, and how they are filled.
use crate::changes::path;
use crate::numbers::{NumberedName, name_of_number};
use directory_tree::Change;

/// A tree that changes are made in.
pub(crate) trait Growing {
    /// Makes a change, and returns whether it was made.
    fn change(&mut self, change: &Change<'_>) -> bool;
}

/// The fewest entries that have room for what is changed, in a tree that is half full.
pub(crate) const FEWEST_ENTRIES: usize = 64;

// The number of directories, each in the one before.
const DEPTH: usize = 16;

/// The path of the deepest of these directories.
pub(crate) const DEEPEST: &[u8] = b"/d/d/d/d/d/d/d/d/d/d/d/d/d/d/d/d";

// The number of entries other than the files with numbered names.
const OTHERS: usize = DEPTH + 3;

/// Fills a tree that has the root alone with `entries` entries, and returns whether all were made: directories, each in the one
/// before, the entries that are moved and removed, and files with numbered names.
pub(crate) fn grow<T: Growing>(tree: &mut T, entries: usize) -> bool {
    for depth in 1..DEPTH + 1 {
        let Some(directory) = path(&DEEPEST[..2 * depth]) else {
            return false;
        };
        if !tree.change(&Change::Mkdir(directory)) {
            return false;
        }
    }
    create(tree, b"/file") && create(tree, b"/other") && make_empty(tree) && fill(tree, entries)
}

fn create<T: Growing>(tree: &mut T, name: &[u8]) -> bool {
    match path(name) {
        Some(file) => tree.change(&Change::Create(file)),
        None => false,
    }
}

fn make_empty<T: Growing>(tree: &mut T) -> bool {
    match path(b"/empty") {
        Some(directory) => tree.change(&Change::Mkdir(directory)),
        None => false,
    }
}

// Creates the files with numbered names, from 1 on, until the tree has that many entries.
fn fill<T: Growing>(tree: &mut T, entries: usize) -> bool {
    for before in 0..numbered_files(entries) {
        if !create(tree, &name_of_number(before + 1)) {
            return false;
        }
    }
    true
}

/// The number of these files in a tree of `entries` entries.
pub(crate) fn numbered_files(entries: usize) -> usize {
    entries.saturating_sub(OTHERS)
}

/// The name of the middle one of them.
pub(crate) fn middle_name(entries: usize) -> NumberedName {
    name_of_number(numbered_files(entries) / 2 + 1)
}
