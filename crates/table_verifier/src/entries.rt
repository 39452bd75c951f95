//! The entries of tables, wherever they are kept, and look-ups in them.
ghost use Rattle.std.specs.Prelude.{◌≡◌, ℕ, ◌+◌, ◌^◌, ◌<◌, false, IfSome, MatchOption, Some, slice_get};
ghost use Rattle.tables.specs.Bounds.{InBounds};
ghost use Rattle.tables.specs.Tables.{Table, cell_count, look_ups, next_state, owns, state_count};
ghost use Rattle.table_verifier.specs.inner.BasedStates.{IsAt};

use crate::laws::chains_fall;
use crate::steps::Steps;
use crate::verified::State;

/// What it takes to read an entry: nothing outside this crate has one, so this crate alone reads entries.
#[derive(Clone, Copy, Debug)]
pub struct Reader {
    _private: (),
}

// The one that the functions of this crate have.
pub(crate) const READER: Reader = Reader { _private: () };

/// The entries of tables that no index leaves. Where the lists are is found once, and not again at each look-up.
pub trait Entries: Drop {
    // The tables that they are of.
    ghost table: { Self → Table };

    /// The same entries: a copy for a function that stays a call leaves the caller's own in registers.
    fn copied(&self) -> Self
        ensures { table result ≡ table self.now };

    /// The tables are in bounds. Nothing is done.
    fn stay_in_bounds(&self)
        ensures { InBounds (table self.now) };

    /// The greatest depth that a state may have.
    fn depth_bound(&self) -> u16
        ensures { result ≡ (table self.now).depth_bound };

    /// A state's depth.
    fn depth_at(&self, reader: Reader, state: usize) -> u32
        requires { state < state_count (table self.now) }
        ensures { slice_get (table self.now).depth state ≡ Some result };

    /// A state's default: where it leads by a byte for which it has no cell.
    fn default_at(&self, reader: Reader, state: usize) -> State
        requires { state < state_count (table self.now) }
        ensures default { slice_get (table self.now).default state ≡ Some result }
        ensures there { result < state_count (table self.now) };

    /// A state's base: the cell of byte 0 in its row. A cell for each other byte follows it.
    fn base_at(&self, reader: Reader, state: usize) -> usize
        requires { state < state_count (table self.now) }
        ensures base { slice_get (table self.now).base state ≡ Some result }
        ensures there { result + 255 < cell_count (table self.now) }
        ensures word { result < 2 ^ 32 };

    /// Where a cell leads.
    fn next_at(&self, reader: Reader, cell: usize) -> State
        requires { cell < cell_count (table self.now) }
        ensures next { slice_get (table self.now).next cell ≡ Some result }
        ensures there { result < state_count (table self.now) };

    /// The state that owns a cell.
    fn check_at(&self, reader: Reader, cell: usize) -> State
        requires { cell < cell_count (table self.now) }
        ensures { slice_get (table self.now).check cell ≡ Some result };
}

/// A state and its base. [`stand`] makes those of a table.
#[derive(Clone, Copy)]
pub(crate) struct Standing {
    pub(crate) state: State,
    pub(crate) base: usize,
}

/// A state with its base. Nothing else reads a base.
#[inline(always)]
pub(crate) fn stand<E: Entries>(entries: &E, state: State) -> Standing
    requires { state < state_count (E.table entries.now) }
    ensures at { IsAt (E.table entries.now) result }
    ensures state { result.state ≡ state }
{
    Standing {
        state,
        base: entries.base_at(READER, state as usize),
    }
}

/// The first look-up of a byte: the cell of a state for it, if the state owns that. One step is counted.
#[inline(always)]
pub(crate) fn look<E: Entries>(
    entries: &E,
    at: Standing,
    byte: u8,
    steps: &mut Steps,
) -> Option<usize>
    requires at { IsAt (E.table entries.now) at }
    requires room { steps.old + 1 < 2 ^ 64 }
    ensures found { MatchOption result (owns (E.table entries.now) at.state byte ≡ false)
        (λ cell. (next_state (E.table entries.now) at.state byte ≡ slice_get (E.table entries.now).next cell)
        × (look_ups (E.table entries.now) at.state byte ≡ 1)) }
    ensures there { IfSome result (λ cell. cell < cell_count (E.table entries.now)) }
    ensures steps { steps.new ≡ steps.old + 1 }
{
    entries.stay_in_bounds();
    chains_fall();
    steps.add();
    let cell = at.base + usize::from(byte);
    if entries.check_at(READER, cell) == at.state {
        Some(cell)
    } else {
        None
    }
}

/// Where a cell leads.
#[inline(always)]
pub(crate) fn follow<E: Entries>(entries: &E, cell: usize) -> State
    requires { cell < cell_count (E.table entries.now) }
    ensures next { slice_get (E.table entries.now).next cell ≡ Some result }
    ensures there { result < state_count (E.table entries.now) }
{
    entries.next_at(READER, cell)
}

/// A state's default. If it is the state itself, a byte for which the state has no cell stays there, in one look-up.
#[inline(always)]
pub(crate) fn default_of<E: Entries>(entries: &E, at: Standing) -> State
    requires { IsAt (E.table entries.now) at }
    ensures default { slice_get (E.table entries.now).default at.state ≡ Some result }
    ensures there { result < state_count (E.table entries.now) }
    ensures stays { result ≡ at.state → (b : ℕ) → b < 256 → owns (E.table entries.now) at.state b ≡ false →
        (next_state (E.table entries.now) at.state b ≡ Some at.state) × (look_ups (E.table entries.now) at.state b ≡ 1) }
{
    entries.stay_in_bounds();
    chains_fall();
    entries.default_at(READER, at.state as usize)
}
