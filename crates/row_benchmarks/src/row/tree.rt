//! A tree in a row in memory.
ghost use Rattle.std.specs.Prelude.{◌≤◌};

use crate::trees::Growing;
use directory_tree::{Change, Last, root_alone_is_well_formed};
use names::Path;
use path_lookup::{NAME_ROOM, Scratch};
use row_plan::{change_row, plan};
use std::alloc::Global;
use std::marker::Model;
use tree_row::{KnownRow, MOST_ENTRIES, RowLook, opening_row_encodes_root, reach};

/// A row that encodes a tree, and the number of the next node.
#[derive(Drop)]
pub(crate) struct Tree {
    alloc: Global,
    look: RowLook<KnownRow>,
    next: u64,
}

impl Model for Tree {
    ghost use Rattle.std.specs.Prelude.{◌≡◌, ℕ, List};
    ghost use Rattle.row_plan.specs.Plan.{Plannable};

    ghost Value = { (ℕ × List ℕ) × ℕ };

    ghost view = { λ t. (t.look.cells, t.next) };

    ghost invariant = { λ t. Plannable t.look.cells.0 (λ row. row ≡ t.look.cells.1) t.next };
}

impl Growing for Tree {
    fn change(&mut self, change: &Change<'_>) -> bool {
        if self.next == u64::MAX {
            return false;
        }
        match change_row(self.alloc, &mut self.look, self.next, change) {
            Ok(next) => {
                self.next = next;
                true
            }
            Err(_) => false,
        }
    }
}

impl Tree {
    /// The root alone, with room for `capacity` entries; none where memory is refused.
    pub(crate) fn new(alloc: Global, capacity: usize) -> Option<Tree>
        requires { capacity ≤ MOST_ENTRIES }
    {
        opening_row_encodes_root();
        root_alone_is_well_formed();
        match KnownRow::new(alloc, capacity) {
            Ok(row) => Some(Tree {
                alloc,
                look: RowLook::new(row),
                next: 2,
            }),
            Err(_) => None,
        }
    }

    /// Plans a change `count` times, and returns how many cells were planned in all.
    pub(crate) fn plan_often(&mut self, change: &Change<'_>, count: usize) -> Option<u64> {
        let mut cells: u64 = 0;
        for _ in 0..count {
            cells = cells.wrapping_add(self.plan_once(change)?);
        }
        Some(cells)
    }

    /// Follows a path `count` times, and returns how many bytes the names have in all.
    pub(crate) fn reach_often(&mut self, path: &Path<'_>, count: usize) -> Option<u64> {
        let mut scratch = Scratch::new();
        let mut room = [0; NAME_ROOM];
        let mut bytes: u64 = 0;
        for _ in 0..count {
            bytes = bytes.wrapping_add(self.reach_once(path, &mut scratch, &mut room)?);
        }
        Some(bytes)
    }

    fn plan_once(&mut self, change: &Change<'_>) -> Option<u64> {
        match plan(self.alloc, &mut self.look, self.next, change) {
            Ok(plan) => Some(plan.len() as u64),
            Err(_) => None,
        }
    }

    fn reach_once(
        &mut self,
        path: &Path<'_>,
        scratch: &mut Scratch,
        room: &mut [u8; NAME_ROOM],
    ) -> Option<u64> {
        match reach(&mut self.look, path, Last::Follow, scratch, room) {
            Ok(found) => Some(found.length as u64),
            Err(_) => None,
        }
    }
}
