//! The readers of the row, concurrent with its keeper.
ghost use Rattle.std.specs.Prelude.{◌≡◌, ◌≢◌, ◌⊎◌, ◌+◌, ◌%◌, ◌<◌, length, IfOk, IfErr};
ghost use Rattle.std.specs.Arc.{arc_value};
ghost use Rattle.tree_row.specs.Rows.{row_length};
ghost use Rattle.row_rule.specs.Steps.{beginning, reading, ending, Sees};
ghost use Rattle.dentry_cache.specs.Seats.{walker_of, IsWalking};
ghost use Rattle.dentry_cache.specs.Told.{SeesAfter};
ghost use Rattle.dentry_cache.specs.inner.Knowledge.{walk, WalkerKnows};

use crate::rule::{RowSeat, RowTable};
use crate::steps;
use row_rule::{Busy, version_between};
use std::marker::{Brand, Model};
use std::mem;
use std::sync::Arc;
use tree_row::{Cells, RowIndex, index_of};

/// A reader of the row. Contracts see it as its table, the row's capacity, and what it knows.
#[derive(Drop)]
pub struct Walker {
    table: Arc<RowTable>,
    seat: RowSeat,
    capacity: usize,
}

impl Model for Walker {
    ghost use Rattle.std.specs.Arc.{arc_value};
    ghost use Rattle.dentry_cache.specs.Walks.{Walk};
    ghost use Rattle.dentry_cache.specs.inner.Knowledge.{walk, WalkerKnows};

    ghost Value = { Walk };

    ghost view = { λ w. walk w.seat w.capacity };

    ghost invariant = { λ w. WalkerKnows (arc_value w.table).shared.table_id (arc_value w.table).shared.key w.seat w.capacity };
}

/// A walk that has read the count, and reads cells. They may be those of a change in progress: what was read is meaningful
/// only once the walk has ended well.
#[derive(Drop)]
pub struct Attempt {
    table: Arc<RowTable>,
    seat: RowSeat,
    capacity: usize,
    // where the row's index is, which each search asks for
    index: RowIndex,
    began: u64,
}

impl Model for Attempt {
    ghost use Rattle.std.specs.Prelude.{◌≡◌};
    ghost use Rattle.std.specs.Arc.{arc_value};
    ghost use Rattle.tree_row.specs.Search.{IsIndexOf};
    ghost use Rattle.dentry_cache.specs.Walks.{Walk};
    ghost use Rattle.dentry_cache.specs.Seats.{walker_of};
    ghost use Rattle.dentry_cache.specs.inner.Knowledge.{walk, WalkerKnows};

    ghost Value = { Walk };

    ghost view = { λ w. walk w.seat w.capacity };

    ghost invariant = { λ w. WalkerKnows (arc_value w.table).shared.table_id (arc_value w.table).shared.key w.seat w.capacity
        × ((walker_of w.seat.me.0).noted ≡ w.began) × IsIndexOf w.capacity w.index };
}

impl Walker {
    pub(crate) fn of(table: Arc<RowTable>, seat: RowSeat, capacity: usize) -> Walker
        requires { WalkerKnows (arc_value table).shared.table_id (arc_value table).shared.key seat capacity }
        ensures { result ≡ walk seat capacity }
    {
        Walker {
            table,
            seat,
            capacity,
        }
    }

    // Takes this seat, and returns its own.
    pub(crate) fn replace_seat(&mut self, seat: RowSeat) -> RowSeat
        requires { (seat.table_id ≡ self.old.table) × IsWalking seat.me }
        ensures new { self.new ≡ walk seat self.old.capacity }
        ensures own { (result.table_id ≡ self.old.table) × IsWalking result.me × (walker_of result.me.0 ≡ self.old.view) }
    {
        mem::replace(&mut self.seat, seat)
    }

    /// Begins a walk: reads the count.
    pub fn begin(self) -> Attempt
        ensures same { (result.table ≡ self.table) × (result.capacity ≡ self.capacity) }
        ensures seen { Sees self.view result.view.noted result.view.seen }
        ensures began { result.view ≡ beginning self.view result.view.noted result.view.seen }
    {
        let Walker {
            table,
            mut seat,
            capacity,
        } = self;
        let began = steps::begin_walk(&table, &mut seat);
        Attempt {
            table,
            seat,
            capacity,
            index: index_of(capacity),
            began,
        }
    }
}

impl Attempt {
    /// Returns the count that the walk began with. If it is odd, a change is in progress, and the walk will end busy.
    pub fn began(&self) -> u64
        ensures { result ≡ self.now.view.noted }
    {
        self.began
    }

    /// Reads the word at a place of the row.
    fn read(&mut self, place: usize) -> u64
        requires { place < row_length self.old.capacity }
        ensures same { (self.new.table ≡ self.old.table) × (self.new.capacity ≡ self.old.capacity) }
        ensures read { self.new.view ≡ reading self.old.view record { place = place; word = result } }
    {
        steps::read_cell(&self.table, &mut self.seat, place)
    }

    /// Ends the walk: reads the count again. If it is the same even number that the walk began with, half that many changes were
    /// made, all of which the walk has seen, and some row that encodes the tree after them agrees with all that was read; their
    /// number is returned as the version. Else the walk was concurrent with a change.
    pub fn end(self) -> (Walker, Result<u64, Busy>)
        ensures same { (result.0.table ≡ self.table) × (result.0.capacity ≡ self.capacity) }
        ensures seen { Sees self.view result.0.view.last result.0.view.seen }
        ensures ended { result.0.view ≡ ending self.view result.0.view.last result.0.view.seen }
        ensures ok { IfOk result.1 (λ version. (result.0.view.last ≡ self.view.noted) × (self.view.noted ≡ version + version)
            × (version ≡ length result.0.view.seen) × (self.view.seen ≡ result.0.view.seen)
            × SeesAfter self.capacity self.view.reads result.0.view.seen) }
        ensures busy { IfErr result.1 (λ busy. (busy.began ≡ self.view.noted) × (busy.ended ≡ result.0.view.last)
            × ((busy.began % 2 ≡ 1) ⊎ (busy.ended ≢ busy.began))) }
    {
        let Attempt {
            table,
            mut seat,
            capacity,
            index: _,
            began,
        } = self;
        let ended = steps::end_walk::<Brand>(&table, &mut seat);
        (
            Walker::of(table, seat, capacity),
            version_between(began, ended),
        )
    }

    /// Abandons the walk, with no further step.
    pub fn stop(self) -> Walker
        ensures { result ≡ self }
    {
        let Attempt {
            table,
            seat: left,
            capacity,
            index: _,
            began: _,
        } = self;
        Walker::of(table, left, capacity)
    }
}

impl Cells for Attempt {
    ghost use Rattle.std.specs.Prelude.{ℕ, List};
    ghost use Rattle.row_rule.specs.Row.{Agrees};
    ghost use Rattle.dentry_cache.specs.Walks.{Walk, unread};

    ghost Kept = { Walk };

    ghost kept = { unread };

    ghost capacity_of = { λ k. k.capacity };

    ghost may = { λ a row. Agrees a.view.reads row };

    ghost whole = { λ _ _. ⊥ };

    ghost unknown = { λ _. ⊥ };

    ghost whole_may = { λ a row none. absurd none };

    fn capacity(&self) -> usize {
        self.capacity
    }

    fn index(&self) -> RowIndex {
        self.index
    }

    fn word(&mut self, place: usize) -> Option<u64> {
        Some(self.read(place))
    }
}
