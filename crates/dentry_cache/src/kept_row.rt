//! The row as its keeper has it.
ghost use Rattle.std.specs.Prelude.{◌≡◌, ◌≤◌, ◌<◌, [], length, slice_index, IfOk, IfErr, ◌*◌};
ghost use mathlib.Core.List.{IsPrefix};
ghost use Rattle.directory_tree.specs.declared.change.Change.{Change};
ghost use Rattle.tree_row.specs.Rows.{row_length};
ghost use Rattle.tree_row.specs.OpeningRow.{opening_row};
ghost use Rattle.row_rule.specs.Steps.{newcomer};
ghost use Rattle.dentry_cache.specs.Models.{Makes, IsStopped, Refuses, SeesHistory};
ghost use Rattle.dentry_cache.specs.Walks.{met_at};
ghost use Rattle.dentry_cache.specs.inner.Knowledge.{Countable, IsPlanned};

use crate::changes::{begin, perform};
use crate::refusal::NoSeat;
use crate::rule::{RowSeat, RowTable};
use crate::steps;
use crate::stopped::StoppedKeeper;
use crate::tally::follow;
use crate::walker::Walker;
use atomic_table::Table;
use directory_tree::Change;
use names::{Errno, MOST_CHANGES, NoMemory};
use row_index::index_length;
use row_plan::next_after;
use row_rule::Cell;
use row_tally::RowTally;
use std::alloc::Global;
use std::marker::Model;
use std::sync::Arc;
use tree_row::{Cells, MOST_ENTRIES, SLOT_LENGTH};

/// The row with the seat of its keeper, which knows all its cells. Contracts see it as its table, the row's capacity, the
/// changes made, and the cells.
#[derive(Drop)]
pub struct KeptRow {
    table: Arc<RowTable>,
    seat: RowSeat,
    capacity: usize,
    // The number of the next node.
    next: u64,
    // The number of changes made.
    version: u64,
    // Follows the row's cells, so that free slots and empty directories are found without reading slots.
    tally: RowTally,
}

impl Model for KeptRow {
    ghost use Rattle.std.specs.Arc.{arc_value};
    ghost use Rattle.dentry_cache.specs.Models.{Held};
    ghost use Rattle.row_tally.specs.Tally.{IsTallyOf};
    ghost use Rattle.dentry_cache.specs.Seats.{keeper_of};
    ghost use Rattle.dentry_cache.specs.inner.Knowledge.{held, KeeperKnows};

    ghost Value = { Held };

    ghost view = { λ k. held k.seat k.capacity };

    ghost invariant = { λ k. KeeperKnows (arc_value k.table).shared.table_id (arc_value k.table).shared.key k.seat
        k.capacity k.next k.version × IsTallyOf k.capacity (keeper_of k.seat.me.0).cells k.tally };
}

impl KeptRow {
    pub(crate) fn new(alloc: Global, capacity: usize) -> Result<KeptRow, NoMemory>
        requires { capacity ≤ MOST_ENTRIES }
        ensures { IfOk result (λ row. (row.capacity ≡ capacity) × (row.history ≡ []) × (row.cells ≡ opening_row capacity)) }
    {
        let length = SLOT_LENGTH * (capacity + 1) + index_length(capacity);
        let Ok(mut words) = vec![in alloc; 0u64; length + 1] else {
            return Err(NoMemory);
        };
        words[1] = 1;
        words[2] = 1;
        let Ok((table, seat)) = Table::of_words(alloc, words.as_slice(), &(capacity as u64)) else {
            return Err(NoMemory);
        };
        let Ok(table) = Arc::new(alloc, table) else {
            return Err(NoMemory);
        };
        let tally = RowTally::new(alloc, capacity)?;
        Ok(KeptRow {
            table,
            seat,
            capacity,
            next: 2,
            version: 0,
            tally,
        })
    }

    pub(crate) fn version(&self) -> u64
        ensures version { result ≡ length self.now.history }
        ensures count { self.now.count ≡ 2 * result }
    {
        self.version
    }

    /// Returns the number of the next node, while one more change can be counted.
    pub(crate) fn next(&self) -> Result<u64, Errno>
        ensures ok { IfOk result (Countable self.now) }
        ensures err { IfErr result (λ errno. (change : Change) → Refuses self.now change errno) }
    {
        if self.version == MOST_CHANGES {
            return Err(Errno::EOVERFLOW);
        }
        Ok(self.next)
    }

    /// Makes a change by its plan.
    pub(crate) fn make(&mut self, change: &Change<'_>, plan: &[Cell]) -> u64
        requires { IsPlanned self.old change.now plan.now }
        ensures made { Makes self.old change.now self.new }
        ensures version { result ≡ length self.new.history }
    {
        let count = 2 * self.version;
        perform(&self.table, &mut self.seat, count, change, plan);
        follow(&mut self.tally, plan);
        self.next = next_after(self.next, change);
        self.version += 1;
        self.version
    }

    /// Begins a change, and stops there permanently.
    pub(crate) fn stop_amid(self, change: &Change<'_>, plan: &[Cell], set: usize) -> StoppedKeeper
        requires { IsPlanned self change.now plan.now }
        ensures { IsStopped self change.now set result }
    {
        let KeptRow {
            table,
            mut seat,
            capacity,
            next: _,
            version,
            tally: _,
        } = self;
        begin(
            &table,
            &mut seat,
            2 * version,
            change,
            plan,
            set.min(plan.len()),
        );
        StoppedKeeper::of(table, seat, capacity)
    }

    pub(crate) fn walker(&self) -> Result<Walker, NoSeat>
        ensures { IfOk result (λ walker. (walker.table ≡ self.now.table) × (walker.capacity ≡ self.now.capacity)
            × (walker.view ≡ newcomer)) }
    {
        match Arc::try_clone(&self.table) {
            Ok(table) => {
                let seat = steps::enter(&table);
                Ok(Walker::of(table, seat, self.capacity))
            }
            Err(_) => Err(NoSeat),
        }
    }

    pub(crate) fn meet(&mut self, walker: &mut Walker)
        requires { walker.old.table ≡ self.old.table }
        ensures same { (self.new ≡ self.old) × (walker.new.table ≡ walker.old.table) × (walker.new.capacity ≡ walker.old.capacity) }
        ensures began { IsPrefix walker.old.view.seen self.old.history }
        ensures seen { walker.new.view ≡ met_at self.old.history }
    {
        let lent = steps::lend(&self.table, &mut self.seat);
        let own = walker.replace_seat(lent);
        steps::take_in(&self.table, &mut self.seat, own);
        steps::learn(&self.table, &mut self.seat);
    }

    /// States what the row encodes, for contracts only: does nothing.
    pub(crate) fn encodes_history(&self)
        ensures { SeesHistory self.now }
    {
        let _ = &self.table;
    }

    // The word at a place of the row.
    fn read(&mut self, place: usize) -> u64
        requires { place < row_length self.old.capacity }
        ensures same { self.new ≡ self.old }
        ensures word { result ≡ slice_index self.old.cells place }
    {
        steps::look_at(&self.table, &mut self.seat, place + 1)
    }
}

impl Cells for KeptRow {
    ghost use Rattle.std.specs.Prelude.{◌≡◌, ℕ, List};
    ghost use Rattle.dentry_cache.specs.Models.{Held};

    ghost Kept = { Held };

    ghost kept = { λ r. r };

    ghost capacity_of = { λ h. h.capacity };

    ghost may = { λ r row. row ≡ r.cells };

    ghost whole = { λ h row. row ≡ h.cells };

    ghost unknown = { λ _. ⊥ };

    ghost whole_may = { λ r row is. (is, λ u. u) };

    fn capacity(&self) -> usize {
        self.capacity
    }

    fn word(&mut self, place: usize) -> Option<u64> {
        Some(self.read(place))
    }

    fn first_candidate(&self) -> usize {
        match self.tally.first_free() {
            Some(slot) => slot,
            None => self.capacity + 1,
        }
    }

    fn known_childless(&self, directory: usize) -> Option<bool> {
        Some(self.tally.is_empty(directory))
    }
}
