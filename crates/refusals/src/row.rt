//! A tree in a row of words in memory.
ghost use Rattle.std.specs.Prelude.{◌≡◌, ◌≤◌, IfOk};
ghost use Rattle.tree_row.specs.OpeningRow.{opening_row};

use crate::trees::{Tree, seen_by};
use directory_tree::{Change, root_alone_is_well_formed};
use names::Errno;
use row_plan::{change_row, plan};
use row_rule::Cell;
use std::alloc::{AllocError, Global};
use std::marker::Model;
use storm_parts::{Call, Difference, Hash, How, again, expect};
use tree_row::{KnownRow, MOST_ENTRIES, RowLook, opening_row_encodes_root};

/// A row that encodes a tree, and the number of the next node.
#[derive(Drop)]
pub(crate) struct Row {
    alloc: Global,
    look: RowLook<KnownRow>,
    next: u64,
}

impl Model for Row {
    ghost use Rattle.std.specs.Prelude.{◌≡◌, ℕ, List};
    ghost use Rattle.row_plan.specs.Plan.{Plannable};

    ghost Value = { (ℕ × List ℕ) × ℕ };

    ghost view = { λ t. (t.look.cells, t.next) };

    ghost invariant = { λ t. Plannable t.look.cells.0 (λ row. row ≡ t.look.cells.1) t.next };
}

impl Row {
    /// The root alone, with room for `capacity` entries.
    pub(crate) fn new(alloc: Global, capacity: usize) -> Result<Row, Difference>
        requires { capacity ≤ MOST_ENTRIES }
    {
        opening_row_encodes_root();
        root_alone_is_well_formed();
        let row = new_row(alloc, capacity)?;
        Ok(Row {
            alloc,
            look: RowLook::new(row),
            next: 2,
        })
    }

    /// The cells that a change would set, or why it is refused. Where memory is refused, the row is as it was.
    pub(crate) fn plan(
        &mut self,
        change: &Change<'_>,
    ) -> Result<Result<Vec<Cell>, Errno>, Difference> {
        let before = self.words();
        match self.try_plan(change) {
            Err(Errno::ENOMEM) => {
                expect(self.words() == before, Call::Plan, How::Changes)?;
                let planned = self.try_plan(change);
                let is_refused = matches!(&planned, Err(Errno::ENOMEM));
                expect(!is_refused, Call::Plan, How::NoAnswer)?;
                Ok(planned)
            }
            planned => Ok(planned),
        }
    }

    fn try_plan(&mut self, change: &Change<'_>) -> Result<Vec<Cell>, Errno> {
        plan(self.alloc, &mut self.look, self.next, change)
    }

    // All words of the row, and the number of the next node.
    fn words(&self) -> Hash {
        let row = &self.look.cells;
        let mut hash = Hash::NONE.and_number(self.next);
        for place in 0..row.length() {
            hash = hash.and_number(row.cell(place));
        }
        hash
    }
}

impl Tree for Row {
    const APPLY: Call = Call::ChangeRow;

    fn try_apply(&mut self, change: &Change<'_>) -> Result<(), Errno> {
        if self.next == u64::MAX {
            return Err(Errno::EOVERFLOW);
        }
        match change_row(self.alloc, &mut self.look, self.next, change) {
            Ok(next) => {
                self.next = next;
                Ok(())
            }
            Err(errno) => Err(errno),
        }
    }

    fn seen(&mut self) -> Result<Hash, Difference> {
        seen_by(&mut self.look)
    }

    // All words, which say what each path leads to.
    fn state(&mut self) -> Result<Hash, Difference> {
        Ok(self.words())
    }
}

fn new_row(alloc: Global, capacity: usize) -> Result<KnownRow, Difference>
    requires { capacity ≤ MOST_ENTRIES }
    ensures { IfOk result (λ row. row ≡ (capacity, opening_row capacity)) }
{
    again(Call::NewRow, AllocError, || KnownRow::new(alloc, capacity))
}
