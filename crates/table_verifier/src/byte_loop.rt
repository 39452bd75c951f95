//! The loop over the bytes of a name, for tables and for images alike.
ghost use Rattle.std.specs.Prelude.{◌≡◌, ◌+◌, ◌-◌, ◌^◌, ◌<◌, false, Some, get_or, length, take};
ghost use Rattle.tables.specs.Tables.{look_ups, look_ups_from, state_count, state_from};
ghost use Rattle.table_verifier.specs.inner.StateExits.{IsLeft};
ghost use Rattle.table_verifier.specs.inner.BasedStates.{IsAt};

use crate::chains::without_cell;
use crate::entries::{Entries, Standing, default_of, follow, look, stand};
use crate::look_ups::LookUps;
use crate::steps::Steps;
use crate::verified::State;
use std::mem;

/// The state that a list of bytes leads to from a state, in one step for each byte. Counted in `again` are the look-ups of each
/// byte except its first.
// It is asked once whether states have depths, so that the loop for tables without them has nothing of chains.
#[inline(always)]
pub fn run_from<E: Entries>(
    entries: &E,
    start: State,
    bytes: &[u8],
    steps: &mut Steps,
    again: &mut LookUps,
) -> State
    requires there { start < state_count (E.table entries.now) }
    requires steps { steps.old + length bytes.now < 2 ^ 64 }
    requires look_ups { again.old + look_ups_from (E.table entries.now) start bytes.now < 2 ^ 128 }
    ensures last { state_from (E.table entries.now) start bytes.now ≡ Some result }
    ensures there { result < state_count (E.table entries.now) }
    ensures steps { steps.new ≡ steps.old + length bytes.now }
    ensures look_ups { again.new + length bytes.now ≡ again.old + look_ups_from (E.table entries.now) start bytes.now }
{
    if entries.depth_bound() > 0 {
        let copy = entries.copied();
        return run_chained(&copy, start, bytes, steps, again);
    }
    walk::<E, false>(entries, start, bytes, steps, again)
}

// The same in tables whose states may have depths. It stays a call. The entries come by reference: a value would be copied in parts
// that are larger than those that were just written, which makes the processor wait.
#[inline(never)]
fn run_chained<E: Entries>(
    entries: &E,
    start: State,
    bytes: &[u8],
    steps: &mut Steps,
    again: &mut LookUps,
) -> State
    requires there { start < state_count (E.table entries.now) }
    requires steps { steps.old + length bytes.now < 2 ^ 64 }
    requires look_ups { again.old + look_ups_from (E.table entries.now) start bytes.now < 2 ^ 128 }
    ensures last { state_from (E.table entries.now) start bytes.now ≡ Some result }
    ensures there { result < state_count (E.table entries.now) }
    ensures steps { steps.new ≡ steps.old + length bytes.now }
    ensures look_ups { again.new + length bytes.now ≡ again.old + look_ups_from (E.table entries.now) start bytes.now }
{
    walk::<E, true>(entries, start, bytes, steps, again)
}

// The loop.
// It is inlined into functions that stay calls of their own, and has a count of its own: so the count and the places of the lists
// are in registers. A base is read in one place, and not once for each way out of a state: if there were two reads, the compiler
// would make them one read of an address that is chosen first, which takes longer.
#[inline(always)]
fn walk<E: Entries, const CHAINS: bool>(
    entries: &E,
    start: State,
    bytes: &[u8],
    steps: &mut Steps,
    again: &mut LookUps,
) -> State
    requires flat { CHAINS ≡ false → (E.table entries.now).depth_bound ≡ 0 }
    requires there { start < state_count (E.table entries.now) }
    requires steps { steps.old + length bytes.now < 2 ^ 64 }
    requires look_ups { again.old + look_ups_from (E.table entries.now) start bytes.now < 2 ^ 128 }
    ensures last { state_from (E.table entries.now) start bytes.now ≡ Some result }
    ensures there { result < state_count (E.table entries.now) }
    ensures steps { steps.new ≡ steps.old + length bytes.now }
    ensures look_ups { again.new + length bytes.now ≡ again.old + look_ups_from (E.table entries.now) start bytes.now }
{
    let mut state = start;
    let mut counted = mem::replace(steps, Steps::new());
    let mut i = 0;
    while i < bytes.len() {
        let at = stand(entries, state);
        let left = leave::<E, CHAINS>(entries, start, at, bytes, i, &mut counted, again);
        state = left.state;
        i = left.next;
    }
    *steps = counted;
    state
}

// The state after some bytes, and the index of the byte after them.
#[derive(Clone, Copy)]
struct Left {
    state: State,
    next: usize,
}

// Goes on from a state up to the first byte that leads out of it, or to the last byte. While the state stays, nothing is read for a
// byte but its check: such a state has no depth. The start is for the contract alone.
#[inline(always)]
fn leave<E: Entries, const CHAINS: bool>(
    entries: &E,
    start: State,
    at: Standing,
    bytes: &[u8],
    from: usize,
    steps: &mut Steps,
    again: &mut LookUps,
) -> Left
    requires flat { CHAINS ≡ false → (E.table entries.now).depth_bound ≡ 0 }
    requires at { IsAt (E.table entries.now) at }
    requires within { from < length bytes.now }
    requires here { state_from (E.table entries.now) start (take from bytes.now) ≡ Some at.state }
    requires steps { steps.old + (length bytes.now - from) < 2 ^ 64 }
    requires look_ups { again.old + look_ups (E.table entries.now) at.state (get_or bytes.now from 0) < 2 ^ 128 + 1 }
    ensures left { IsLeft (E.table entries.now) start bytes.now from result }
    ensures steps { steps.new ≡ steps.old + (result.next - from) }
    ensures look_ups { again.new + (result.next - from) + look_ups_from (E.table entries.now) start (take from bytes.now)
        ≡ again.old + look_ups_from (E.table entries.now) start (take result.next bytes.now) }
{
    let _start = start;
    if let Some(cell) = look(entries, at, bytes[from], steps) {
        return Left {
            state: follow(entries, cell),
            next: from + 1,
        };
    }
    let default = default_of(entries, at);
    if default != at.state {
        return Left {
            state: without_cell::<E, CHAINS>(entries, at, default, bytes[from], again),
            next: from + 1,
        };
    }
    for i in from + 1..bytes.len() {
        if let Some(cell) = look(entries, at, bytes[i], steps) {
            return Left {
                state: follow(entries, cell),
                next: i + 1,
            };
        }
    }
    Left {
        state: at.state,
        next: bytes.len(),
    }
}
