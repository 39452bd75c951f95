//! The tree of a keeper.
ghost use Rattle.std.specs.Prelude.{◌≤◌};

use crate::trees::{Growing, grow};
use dentry_cache::Keeper;
use directory_tree::Change;
use std::alloc::Global;
use tree_row::MOST_ENTRIES;

/// A tree that its keeper grows.
#[derive(Drop)]
struct Grown {
    keeper: Keeper,
}

impl Growing for Grown {
    fn change(&mut self, change: &Change<'_>) -> bool {
        self.keeper.apply(change).is_ok()
    }
}

/// The keeper of a tree that has room for `capacity` entries, and `entries` of them; none if memory runs out.
pub(crate) fn filled(alloc: Global, capacity: usize, entries: usize) -> Option<Keeper>
    requires { capacity ≤ MOST_ENTRIES }
{
    let keeper = Keeper::new(alloc, capacity).ok()?;
    let mut tree = Grown { keeper };
    if grow(&mut tree, entries) {
        Some(tree.keeper)
    } else {
        None
    }
}
