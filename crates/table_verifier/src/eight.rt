//! Eight look-ups side by side.
ghost use Rattle.std.specs.Prelude.{◌≡◌, ◌+◌, ◌^◌, ◌<◌, Some};
ghost use Rattle.tables.specs.Tables.{next_state, state_count};
ghost use Rattle.table_verifier.specs.Eight.{AreNext, AreThere};

use crate::entries::{Entries, READER};
use crate::laws::chains_fall;
use crate::steps::Steps;
use crate::verified::State;

// One look-up that branches on nothing that is read: the targets by the cell and by the default are both read, and one is taken.
#[inline(always)]
fn choose<E: Entries>(entries: &E, state: State, byte: u8) -> State
    requires flat { (E.table entries.now).depth_bound ≡ 0 }
    requires there { state < state_count (E.table entries.now) }
    ensures next { next_state (E.table entries.now) state byte ≡ Some result }
    ensures there { result < state_count (E.table entries.now) }
{
    entries.stay_in_bounds();
    chains_fall();
    let cell = entries.base_at(READER, state as usize) + usize::from(byte);
    let is_own = entries.check_at(READER, cell) == state;
    let by_cell = entries.next_at(READER, cell);
    let by_default = entries.default_at(READER, state as usize);
    if is_own { by_cell } else { by_default }
}

/// The states after eight states and a byte for each, in tables whose states have no depth: eight steps of one look-up each, none of
/// which waits for another. Where it isn't known which names come, a wrong guess of a branch costs more than the read that it saves,
/// so there is no branch.
#[inline(always)]
pub fn look_up_eight<E: Entries>(
    entries: &E,
    states: [State; 8],
    bytes: [u8; 8],
    steps: &mut Steps,
) -> [State; 8]
    requires flat { (E.table entries.now).depth_bound ≡ 0 }
    requires there { AreThere (E.table entries.now) states }
    requires room { steps.old + 8 < 2 ^ 64 }
    ensures next { AreNext (E.table entries.now) states bytes result }
    ensures there { AreThere (E.table entries.now) result }
    ensures steps { steps.new ≡ steps.old + 8 }
{
    steps.add_eight();
    [
        choose(entries, states[0], bytes[0]),
        choose(entries, states[1], bytes[1]),
        choose(entries, states[2], bytes[2]),
        choose(entries, states[3], bytes[3]),
        choose(entries, states[4], bytes[4]),
        choose(entries, states[5], bytes[5]),
        choose(entries, states[6], bytes[6]),
        choose(entries, states[7], bytes[7]),
    ]
}
