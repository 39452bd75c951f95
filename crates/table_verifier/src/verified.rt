//! Tables that were accepted.
ghost use Rattle.std.specs.Prelude.{◌≡◌, ◌+◌, ◌^◌, ◌<◌, Some, slice_get};
ghost use Rattle.tables.specs.Bounds.{InBounds};
ghost use Rattle.tables.specs.Tables.{cell_count, look_ups, next_state, record_count, record_of, state_count, table_value};
ghost use Rattle.table_verifier.specs.Runs.{Runs};

use crate::chains::look_up;
use crate::entries::{Entries, Reader};
use crate::laws::tables_in_bounds_run;
use crate::look_ups::LookUps;
use crate::steps::Steps;
use names::Record;
use std::marker::Model;
use tables::RawTable;

/// The number of a state.
pub type State = u32;

// The start of every table.
pub(crate) const START: State = 1;

/// Tables that no index leaves. They can't be changed any more.
#[derive(Drop)]
pub struct VerifiedTable {
    pub(crate) table: RawTable,
}

impl Model for VerifiedTable {
    ghost use Rattle.tables.specs.Bounds.{InBounds};
    ghost use Rattle.tables.specs.Tables.{Table, table_value};

    ghost Value = { Table };

    ghost view = { λ v. table_value v.table };

    ghost invariant = { λ v. InBounds (table_value v.table) };
}

impl VerifiedTable {
    /// The state before the first byte. Every table has it, and runs from it on every list of bytes.
    pub fn start(&self) -> State
        ensures start { result ≡ 1 }
        ensures there { result < state_count self.now }
        ensures runs { Runs self.now }
    {
        // What the type keeps of its table is known from here on.
        let _ = &self.table;
        tables_in_bounds_run();
        START
    }

    /// The entries of the table.
    #[inline(always)]
    pub fn entries(&self) -> TableEntries<'_>
        ensures { result ≡ self.now }
    {
        TableEntries {
            verified: self,
            default: &self.table.default,
            base: &self.table.base,
            next: &self.table.next,
            check: &self.table.check,
            depth: &self.table.depth,
        }
    }

    /// The state after a state and a byte: one step, and at most one look-up more than the bound of depths.
    pub fn look_up(&self, state: State, byte: u8, steps: &mut Steps, lookups: &mut LookUps) -> State
        requires state { state < state_count self.now }
        requires steps { steps.old + 1 < 2 ^ 64 }
        requires look_ups { lookups.old + self.now.depth_bound + 1 < 2 ^ 128 }
        ensures next { next_state self.now state byte ≡ Some result }
        ensures there { result < state_count self.now }
        ensures steps { steps.new ≡ steps.old + 1 }
        ensures look_ups { lookups.new ≡ lookups.old + look_ups self.now state byte }
    {
        look_up(&self.entries(), state, byte, steps, lookups)
    }

    /// The record of names that end in a state.
    pub fn record_of(&self, state: State) -> Record
        requires { state < state_count self.now }
        ensures { record_of self.now state ≡ Some result }
    {
        self.table.records[self.table.accept[state as usize] as usize]
    }

    /// How many states there are.
    pub fn states(&self) -> u32
        ensures { result ≡ state_count self.now }
    {
        self.table.default.len() as u32
    }

    /// How many cells there are.
    pub fn cells(&self) -> u32
        ensures { result ≡ cell_count self.now }
    {
        self.table.next.len() as u32
    }

    /// How many records there are.
    pub fn records(&self) -> u32
        ensures { result ≡ record_count self.now }
    {
        self.table.records.len() as u32
    }

    /// The greatest depth that a state may have.
    pub fn depth_bound(&self) -> u16
        ensures { result ≡ self.now.depth_bound }
    {
        self.table.depth_bound
    }
}

/// The entries of a verified table: its lists.
#[derive(Drop)]
pub struct TableEntries<'a> {
    verified: &'a VerifiedTable,
    default: &'a [u32],
    base: &'a [u32],
    next: &'a [u32],
    check: &'a [u32],
    depth: &'a [u32],
}

impl<'a> Model for TableEntries<'a> {
    ghost use Rattle.std.specs.Prelude.{◌≡◌};
    ghost use Rattle.tables.specs.Bounds.{InBounds};
    ghost use Rattle.tables.specs.Tables.{Table};

    ghost Value = { Table };

    ghost view = { λ entries. entries.verified.now };

    ghost invariant = { λ entries. InBounds entries.verified.now × (entries.default.now ≡ entries.verified.now.default)
        × (entries.base.now ≡ entries.verified.now.base) × (entries.next.now ≡ entries.verified.now.next)
        × (entries.check.now ≡ entries.verified.now.check) × (entries.depth.now ≡ entries.verified.now.depth) };
}

impl<'a> Entries for TableEntries<'a> {
    ghost table = { λ entries. entries };

    #[inline(always)]
    fn copied(&self) -> TableEntries<'a> {
        self.verified.entries()
    }

    #[inline(always)]
    fn stay_in_bounds(&self) {
        // What the type keeps of its tables is known from here on.
        let _ = &self.verified;
    }

    #[inline(always)]
    fn depth_bound(&self) -> u16 {
        self.verified.depth_bound()
    }

    #[inline(always)]
    fn depth_at(&self, _reader: Reader, state: usize) -> u32 {
        let depth = self.depth;
        depth[state]
    }

    #[inline(always)]
    fn default_at(&self, _reader: Reader, state: usize) -> State {
        let default = self.default;
        default[state]
    }

    #[inline(always)]
    fn base_at(&self, _reader: Reader, state: usize) -> usize {
        let base = self.base;
        base[state] as usize
    }

    #[inline(always)]
    fn next_at(&self, _reader: Reader, cell: usize) -> State {
        let next = self.next;
        next[cell]
    }

    #[inline(always)]
    fn check_at(&self, _reader: Reader, cell: usize) -> State {
        let check = self.check;
        check[cell]
    }
}
