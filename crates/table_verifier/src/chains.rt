//! Bytes that are looked up again, at one default after another.
ghost use Rattle.std.specs.Prelude.{◌≡◌, ◌+◌, ◌^◌, ◌<◌, false, Some, slice_get};
ghost use Rattle.tables.specs.Tables.{look_ups, next_state, owns, state_count};
ghost use Rattle.table_verifier.specs.inner.BasedStates.{IsAt};
ghost use Rattle.table_verifier.specs.inner.LookUps.{IsLooked};

use crate::entries::{Entries, READER, Standing};
use crate::laws::{chains_fall, tables_in_bounds_run};
use crate::look_ups::LookUps;
use crate::steps::Steps;
use crate::verified::State;

// The state after a state and a byte for which it has no cell: its default, or the one that a chain of defaults leads to. Counted
// are the look-ups of the byte except its first.
#[inline(always)]
fn onward<E: Entries>(
    entries: &E,
    at: Standing,
    default: State,
    byte: u8,
    again: &mut LookUps,
) -> State
    requires at { IsAt (E.table entries.now) at }
    requires unowned { owns (E.table entries.now) at.state byte ≡ false }
    requires default { slice_get (E.table entries.now).default at.state ≡ Some default }
    requires room { again.old + look_ups (E.table entries.now) at.state byte < 2 ^ 128 + 1 }
    ensures next { next_state (E.table entries.now) at.state byte ≡ Some result }
    ensures there { result < state_count (E.table entries.now) }
    ensures look_ups { again.new + 1 ≡ again.old + look_ups (E.table entries.now) at.state byte }
{
    entries.stay_in_bounds();
    chains_fall();
    if entries.depth_at(READER, at.state as usize) == 0 {
        return default;
    }
    chain(entries, default, byte, again)
}

/// The state after a state and a byte for which it has no cell, where it is known beforehand whether states may have depths.
/// Counted are the look-ups of the byte except its first.
#[inline(always)]
pub(crate) fn without_cell<E: Entries, const CHAINS: bool>(
    entries: &E,
    at: Standing,
    default: State,
    byte: u8,
    again: &mut LookUps,
) -> State
    requires flat { CHAINS ≡ false → (E.table entries.now).depth_bound ≡ 0 }
    requires at { IsAt (E.table entries.now) at }
    requires unowned { owns (E.table entries.now) at.state byte ≡ false }
    requires default { slice_get (E.table entries.now).default at.state ≡ Some default }
    requires room { again.old + look_ups (E.table entries.now) at.state byte < 2 ^ 128 + 1 }
    ensures next { next_state (E.table entries.now) at.state byte ≡ Some result }
    ensures there { result < state_count (E.table entries.now) }
    ensures look_ups { again.new + 1 ≡ again.old + look_ups (E.table entries.now) at.state byte }
{
    entries.stay_in_bounds();
    chains_fall();
    if CHAINS {
        return onward(entries, at, default, byte, again);
    }
    default
}

// What one look-up finds: the next state, or the state at which the same byte is looked up again.
#[derive(Clone, Copy)]
pub(crate) enum Looked {
    Next(State),
    Onward(State),
}

// One look-up.
fn look_once<E: Entries>(entries: &E, state: State, byte: u8, lookups: &mut LookUps) -> Looked
    requires state { state < state_count (E.table entries.now) }
    requires room { lookups.old + 1 < 2 ^ 128 }
    ensures looked { IsLooked (E.table entries.now) state byte result }
    ensures look_ups { lookups.new ≡ lookups.old + 1 }
{
    entries.stay_in_bounds();
    chains_fall();
    lookups.add();
    let cell = entries.base_at(READER, state as usize) + usize::from(byte);
    if entries.check_at(READER, cell) == state {
        return Looked::Next(entries.next_at(READER, cell));
    }
    let default = entries.default_at(READER, state as usize);
    if entries.depth_at(READER, state as usize) == 0 {
        return Looked::Next(default);
    }
    Looked::Onward(default)
}

// The state after a state and a byte, along a chain of defaults. It is a function of its own so that its registers aren't taken
// from a loop that seldom calls it.
#[inline(never)]
fn chain<E: Entries>(entries: &E, state: State, byte: u8, lookups: &mut LookUps) -> State
    requires state { state < state_count (E.table entries.now) }
    requires room { lookups.old + look_ups (E.table entries.now) state byte < 2 ^ 128 }
    ensures next { next_state (E.table entries.now) state byte ≡ Some result }
    ensures there { result < state_count (E.table entries.now) }
    ensures look_ups { lookups.new ≡ lookups.old + look_ups (E.table entries.now) state byte }
{
    entries.stay_in_bounds();
    tables_in_bounds_run();
    let mut at = state;
    'chain: loop {
        match look_once(entries, at, byte, lookups) {
            Looked::Next(next) => return next,
            Looked::Onward(default) => at = default,
        }
    }
}

/// The state after a state and a byte: one step, and at most one look-up more than the bound of depths.
#[inline(always)]
pub(crate) fn look_up<E: Entries>(
    entries: &E,
    state: State,
    byte: u8,
    steps: &mut Steps,
    lookups: &mut LookUps,
) -> State
    requires state { state < state_count (E.table entries.now) }
    requires steps { steps.old + 1 < 2 ^ 64 }
    requires look_ups { lookups.old + (E.table entries.now).depth_bound + 1 < 2 ^ 128 }
    ensures next { next_state (E.table entries.now) state byte ≡ Some result }
    ensures there { result < state_count (E.table entries.now) }
    ensures steps { steps.new ≡ steps.old + 1 }
    ensures look_ups { lookups.new ≡ lookups.old + look_ups (E.table entries.now) state byte }
{
    entries.stay_in_bounds();
    tables_in_bounds_run();
    steps.add();
    chain(entries, state, byte, lookups)
}
