//! Many names of one text run through a table or an image, eight side by side.
ghost use Rattle.std.specs.Prelude.{◌≡◌, ◌↔◌, ◌+◌, ◌-◌, ◌*◌, ◌^◌, ◌<◌, ◌≤◌, IsTrue, get_or, length};
ghost use Rattle.tables.specs.Tables.{state_count};
ghost use Rattle.table_verifier.specs.Eight.{AreThere};
ghost use Rattle.table_batches.specs.Batches.{AreAfter, AreOffsets, look_ups_of_names};
ghost use Rattle.table_batches.specs.inner.Seats.{AreAfterTo, AreLed, AreWithin};

use crate::seats::run_seats;
use std::mem;
use table_verifier::{
    Entries, LookUps, State, Steps, VerifiedImage, VerifiedTable, look_up_eight,
    look_ups_are_bounded, run_from,
};

/// Whether these are the offsets of this number of names in a text: each name goes from one to the next.
pub fn are_offsets(text: &[u8], offsets: &[usize], count: usize) -> bool
    ensures { IsTrue result ↔ AreOffsets text.now offsets.now count }
{
    if offsets.is_empty() || offsets.len() - 1 != count || offsets[0] > text.len() {
        return false;
    }
    for i in 0..count {
        if offsets[i] > offsets[i + 1] || offsets[i + 1] > text.len() {
            return false;
        }
    }
    true
}

/// The states that the names of a text lead to through a table: each name goes from an offset to the next one. Each of their bytes
/// takes exactly one step, and one look-up at least and at most one more than the bound of depths. Allocates nothing, and can't be
/// refused. Names are run eight at a time, side by side, where that is expected to be faster.
pub fn run_names(
    table: &VerifiedTable,
    text: &[u8],
    offsets: &[usize],
    states: &mut [State],
    steps: &mut Steps,
    lookups: &mut LookUps,
)
    requires offsets { AreOffsets text.now offsets.now (length states.old) }
    requires steps { steps.old + length text.now < 2 ^ 64 }
    requires look_ups { lookups.old + (table.now.depth_bound + 1) * length text.now < 2 ^ 128 }
    ensures long { length states.new ≡ length states.old }
    ensures states { AreAfter table.now text.now offsets.now states.new }
    ensures steps { steps.new + get_or offsets.now 0 0 ≡ steps.old + get_or offsets.now (length states.old) 0 }
    ensures look_ups { lookups.new ≡ lookups.old + look_ups_of_names table.now text.now offsets.now (length states.old) }
{
    let _ = table.start();
    run_counted(&table.entries(), text, offsets, states, steps, lookups)
}

/// The same through an image.
pub fn run_names_by_image(
    image: &VerifiedImage<'_>,
    text: &[u8],
    offsets: &[usize],
    states: &mut [State],
    steps: &mut Steps,
    lookups: &mut LookUps,
)
    requires offsets { AreOffsets text.now offsets.now (length states.old) }
    requires steps { steps.old + length text.now < 2 ^ 64 }
    requires look_ups { lookups.old + (image.now.depth_bound + 1) * length text.now < 2 ^ 128 }
    ensures long { length states.new ≡ length states.old }
    ensures states { AreAfter image.now text.now offsets.now states.new }
    ensures steps { steps.new + get_or offsets.now 0 0 ≡ steps.old + get_or offsets.now (length states.old) 0 }
    ensures look_ups { lookups.new ≡ lookups.old + look_ups_of_names image.now text.now offsets.now (length states.old) }
{
    let _ = image.start();
    run_counted(&image.entries(), text, offsets, states, steps, lookups)
}

/// Names that are longer than this in the mean are run one by one: they mostly stay in one state, where that is faster.
const LONG: usize = 256;

/// Names that are shorter than this in the mean are run one by one, unless they are equally long: giving a seat to the next name takes
/// as long as some thirty look-ups.
const SHORT: usize = 64;

// The look-ups are those of each byte's first, and those made again.
#[inline(always)]
fn run_counted<E: Entries>(
    entries: &E,
    text: &[u8],
    offsets: &[usize],
    states: &mut [State],
    steps: &mut Steps,
    lookups: &mut LookUps,
)
    requires start { 1 < state_count (E.table entries.now) }
    requires offsets { AreOffsets text.now offsets.now (length states.old) }
    requires steps { steps.old + length text.now < 2 ^ 64 }
    requires look_ups { lookups.old + ((E.table entries.now).depth_bound + 1) * length text.now < 2 ^ 128 }
    ensures long { length states.new ≡ length states.old }
    ensures states { AreAfter (E.table entries.now) text.now offsets.now states.new }
    ensures steps { steps.new + get_or offsets.now 0 0 ≡ steps.old + get_or offsets.now (length states.old) 0 }
    ensures look_ups { lookups.new ≡ lookups.old + look_ups_of_names (E.table entries.now) text.now offsets.now (length states.old) }
{
    entries.stay_in_bounds();
    look_ups_are_bounded();
    let names = &text[offsets[0]..offsets[states.len()]];
    let mut again = LookUps::new();
    run_all(entries, text, offsets, states, steps, &mut again);
    lookups.of_bytes(names, &again);
}

// Names side by side, if there are eight at least, no state has a depth, and that is expected to be faster. Counted in `again` are
// the look-ups of each byte except its first.
fn run_all<E: Entries>(
    entries: &E,
    text: &[u8],
    offsets: &[usize],
    states: &mut [State],
    steps: &mut Steps,
    again: &mut LookUps,
)
    requires start { 1 < state_count (E.table entries.now) }
    requires offsets { AreOffsets text.now offsets.now (length states.old) }
    requires steps { steps.old + length text.now < 2 ^ 64 }
    requires look_ups { again.old + look_ups_of_names (E.table entries.now) text.now offsets.now (length states.old) < 2 ^ 128 }
    ensures long { length states.new ≡ length states.old }
    ensures states { AreAfter (E.table entries.now) text.now offsets.now states.new }
    ensures steps { steps.new + get_or offsets.now 0 0 ≡ steps.old + get_or offsets.now (length states.old) 0 }
    ensures look_ups { again.new + get_or offsets.now (length states.old) 0
        ≡ again.old + look_ups_of_names (E.table entries.now) text.now offsets.now (length states.old) + get_or offsets.now 0 0 }
{
    entries.stay_in_bounds();
    look_ups_are_bounded();
    if entries.depth_bound() > 0
        || states.len() < 8
        || !are_faster_together(offsets, states.len())
    {
        run_each(entries, text, offsets, 0, states, steps, again);
        return;
    }
    run_seats(entries, text, offsets, states, steps);
}

// Whether eight names or more are expected to be run faster side by side. This is a matter of speed alone.
fn are_faster_together(offsets: &[usize], count: usize) -> bool
    requires offsets { length offsets.now ≡ count + 1 }
    requires enough { 8 ≤ count }
{
    let mean = offsets[count].saturating_sub(offsets[0]) / count;
    mean <= LONG && (mean >= SHORT || are_equally_long(offsets))
}

// Whether the first eight names are equally long.
fn are_equally_long(offsets: &[usize]) -> bool
    requires { 8 < length offsets.now }
{
    let long = offsets[1].saturating_sub(offsets[0]);
    for name in 1..8 {
        if offsets[name + 1].saturating_sub(offsets[name]) != long {
            return false;
        }
    }
    true
}

/// Runs the names from one on, each by itself. Counted in `again` are the look-ups of each byte except its first.
#[inline(always)]
pub(crate) fn run_each<E: Entries>(
    entries: &E,
    text: &[u8],
    offsets: &[usize],
    first: usize,
    states: &mut [State],
    steps: &mut Steps,
    again: &mut LookUps,
)
    requires start { 1 < state_count (E.table entries.now) }
    requires offsets { AreOffsets text.now offsets.now (length states.old) }
    requires first { first ≤ length states.old }
    requires done { AreAfterTo (E.table entries.now) text.now offsets.now first states.old }
    requires steps { steps.old + (length text.now - get_or offsets.now first 0) < 2 ^ 64 }
    requires look_ups { again.old + look_ups_of_names (E.table entries.now) text.now offsets.now (length states.old)
        < 2 ^ 128 + look_ups_of_names (E.table entries.now) text.now offsets.now first }
    ensures long { length states.new ≡ length states.old }
    ensures states { AreAfter (E.table entries.now) text.now offsets.now states.new }
    ensures steps { steps.new + get_or offsets.now first 0 ≡ steps.old + get_or offsets.now (length states.old) 0 }
    ensures look_ups { again.new + get_or offsets.now (length states.old) 0
        + look_ups_of_names (E.table entries.now) text.now offsets.now first
        ≡ again.old + look_ups_of_names (E.table entries.now) text.now offsets.now (length states.old) + get_or offsets.now first 0 }
{
    let count = states.len();
    for rest in first..count {
        let name = &text[offsets[rest]..offsets[rest + 1]];
        states[rest] = run_from(entries, 1, name, steps, again);
    }
}

/// The states after `count` bytes from each of eight places, and eight states to begin with.
// It stays a call of its own, so that the states are in registers.
#[inline(never)]
pub(crate) fn side_by_side<E: Entries>(
    entries: &E,
    text: &[u8],
    places: [usize; 8],
    count: usize,
    states: [State; 8],
    steps: &mut Steps,
) -> [State; 8]
    requires flat { (E.table entries.now).depth_bound ≡ 0 }
    requires there { AreThere (E.table entries.now) states }
    requires within { AreWithin text.now places count }
    requires room { steps.old + 8 * count < 2 ^ 64 }
    ensures there { AreThere (E.table entries.now) result }
    ensures led { AreLed (E.table entries.now) text.now places count states result }
    ensures steps { steps.new ≡ steps.old + 8 * count }
{
    let mut reached = states;
    let mut counted = mem::replace(steps, Steps::new());
    for i in 0..count {
        let bytes = [
            text[places[0] + i],
            text[places[1] + i],
            text[places[2] + i],
            text[places[3] + i],
            text[places[4] + i],
            text[places[5] + i],
            text[places[6] + i],
            text[places[7] + i],
        ];
        let after = look_up_eight(entries, reached, bytes, &mut counted);
        reached = after;
    }
    *steps = counted;
    reached
}
