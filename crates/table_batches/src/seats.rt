//! Eight seats for names of different lengths: when a name ends, the next name takes its seat.
ghost use Rattle.std.specs.Prelude.{ℕ, ◌≡◌, ◌+◌, ◌-◌, ◌^◌, ◌<◌, ◌≤◌, get_or, length};
ghost use Rattle.tables.specs.Tables.{state_count};
ghost use Rattle.table_batches.specs.Batches.{AreAfter, AreOffsets};
ghost use Rattle.table_batches.specs.inner.Seats.{AreAfterTo, AreLeft, AreNamed, AreSeats, AreUnderWay, first_seats, left_of};

use crate::batches::{run_each, side_by_side};
use table_verifier::{Entries, LookUps, State, Steps, look_ups_are_bounded, run_from};

/// Eight names on their way. The loop over bytes takes the places and states as they are, so these are lists of their own.
#[derive(Clone, Copy)]
pub(crate) struct Seats {
    // For each seat the number of its name.
    names: [usize; 8],
    // Where in the text the name's next byte is.
    places: [usize; 8],
    // The state that the name has reached.
    states: [State; 8],
}

/// The state in which a name has died: no rule matches it, whatever follows.
const DEAD: State = 0;

/// After this number of bytes the first eight names are looked at.
const SAMPLE: usize = 8;

/// If this number of these have died, all are run one by one: names that stay in one state are faster in that way.
const MOST_DEAD: u32 = 6;

/// The states of eight names or more, in tables whose states have no depth.
pub(crate) fn run_seats<E: Entries>(
    entries: &E,
    text: &[u8],
    offsets: &[usize],
    states: &mut [State],
    steps: &mut Steps,
)
    requires flat { (E.table entries.now).depth_bound ≡ 0 }
    requires start { 1 < state_count (E.table entries.now) }
    requires offsets { AreOffsets text.now offsets.now (length states.old) }
    requires enough { 8 ≤ length states.old }
    requires room { steps.old + length text.now < 2 ^ 64 }
    ensures long { length states.new ≡ length states.old }
    ensures states { AreAfter (E.table entries.now) text.now offsets.now states.new }
    ensures steps { steps.new + get_or offsets.now 0 0 ≡ steps.old + get_or offsets.now (length states.old) 0 }
{
    entries.stay_in_bounds();
    look_ups_are_bounded();
    let count = states.len();
    let mut seats = first_seats(offsets, count);
    advance(entries, text, offsets, count, SAMPLE, &mut seats, steps);
    let next = seat_all(entries, text, offsets, &mut seats, states, steps);
    // The eight go on for as long as each of them has bytes, and then each by itself. What is still waiting goes by itself, too.
    advance(entries, text, offsets, count, usize::MAX, &mut seats, steps);
    finish(entries, text, offsets, &seats, next, states, steps);
    run_each(
        entries,
        text,
        offsets,
        next,
        states,
        steps,
        &mut LookUps::new(),
    );
}

// The first eight names, before their first bytes.
fn first_seats(offsets: &[usize], count: usize) -> Seats
    requires offsets { length offsets.now ≡ count + 1 }
    requires enough { 8 ≤ count }
    ensures { result ≡ first_seats offsets.now }
{
    let _ = count;
    Seats {
        names: [0, 1, 2, 3, 4, 5, 6, 7],
        places: [
            offsets[0], offsets[1], offsets[2], offsets[3], offsets[4], offsets[5], offsets[6],
            offsets[7],
        ],
        states: [1; 8],
    }
}

// Whether most of eight names have died. This is a matter of speed alone: a table needn't have a state in which names die.
fn have_died(states: [State; 8]) -> bool {
    let mut dead = 0u32;
    for state in &states {
        if *state == DEAD {
            dead = dead.saturating_add(1);
        }
    }
    dead >= MOST_DEAD
}

// Runs the names until none is waiting, and returns the number of the next one. If most of the first eight have died, no other name
// gets a seat.
#[inline(always)]
fn seat_all<E: Entries>(
    entries: &E,
    text: &[u8],
    offsets: &[usize],
    seats: &mut Seats,
    states: &mut [State],
    steps: &mut Steps,
) -> usize
    requires flat { (E.table entries.now).depth_bound ≡ 0 }
    requires start { 1 < state_count (E.table entries.now) }
    requires offsets { AreOffsets text.now offsets.now (length states.old) }
    requires way { AreUnderWay (E.table entries.now) text.now offsets.now seats.old 8 states.old }
    requires room { steps.old + left_of offsets.now seats.old.names seats.old.places 8
        + (length text.now - get_or offsets.now 8 0) < 2 ^ 64 }
    ensures long { length states.new ≡ length states.old }
    ensures way { AreUnderWay (E.table entries.now) text.now offsets.now seats.new result states.new }
    ensures steps { steps.new + left_of offsets.now seats.new.names seats.new.places 8 + get_or offsets.now 8 0
        ≡ steps.old + left_of offsets.now seats.old.names seats.old.places 8 + get_or offsets.now result 0 }
{
    let count = states.len();
    let mut next = 8;
    if have_died(seats.states) {
        return next;
    }
    // Each round ends a name at least, so there are no more rounds than names.
    for _round in 0..count {
        if next >= count {
            break;
        }
        advance(entries, text, offsets, count, usize::MAX, seats, steps);
        next = refill(entries, text, offsets, seats, next, states);
    }
    next
}

// Goes on with all eight for as many bytes as each of them has, but for no more than some.
#[inline(always)]
fn advance<E: Entries>(
    entries: &E,
    text: &[u8],
    offsets: &[usize],
    count: usize,
    most: usize,
    seats: &mut Seats,
    steps: &mut Steps,
)
    requires flat { (E.table entries.now).depth_bound ≡ 0 }
    requires offsets { AreOffsets text.now offsets.now count }
    requires seats { AreSeats (E.table entries.now) text.now offsets.now count seats.old }
    requires room { steps.old + left_of offsets.now seats.old.names seats.old.places 8 < 2 ^ 64 }
    ensures seats { AreSeats (E.table entries.now) text.now offsets.now count seats.new }
    ensures names { seats.new.names ≡ seats.old.names }
    ensures steps { steps.new + left_of offsets.now seats.new.names seats.new.places 8
        ≡ steps.old + left_of offsets.now seats.old.names seats.old.places 8 }
{
    let names = seats.names;
    let places = seats.places;
    let shared = shortest_left(text, offsets, count, most, names, places);
    let reached = side_by_side(entries, text, places, shared, seats.states, steps);
    *seats = Seats {
        names,
        places: [
            places[0] + shared,
            places[1] + shared,
            places[2] + shared,
            places[3] + shared,
            places[4] + shared,
            places[5] + shared,
            places[6] + shared,
            places[7] + shared,
        ],
        states: reached,
    };
}

// The least number of bytes that one of eight names has left, or `most` if that is less.
fn shortest_left(
    text: &[u8],
    offsets: &[usize],
    count: usize,
    most: usize,
    names: [usize; 8],
    places: [usize; 8],
) -> usize
    requires offsets { AreOffsets text.now offsets.now count }
    requires named { AreNamed names count }
    requires left { AreLeft offsets.now names places 0 }
    ensures { AreLeft offsets.now names places result }
{
    let _ = text;
    let mut least = most;
    for k in 0..8 {
        let long = offsets[names[k] + 1] - places[k];
        if long < least {
            least = long;
        }
    }
    least
}

// Keeps the states of the names that have ended, and gives their seats to the next names. The entries and the text are for the
// contract alone.
#[inline(always)]
fn refill<E: Entries>(
    entries: &E,
    text: &[u8],
    offsets: &[usize],
    seats: &mut Seats,
    next: usize,
    states: &mut [State],
) -> usize
    requires start { 1 < state_count (E.table entries.now) }
    requires offsets { AreOffsets text.now offsets.now (length states.old) }
    requires way { AreUnderWay (E.table entries.now) text.now offsets.now seats.old next states.old }
    ensures long { length states.new ≡ length states.old }
    ensures way { AreUnderWay (E.table entries.now) text.now offsets.now seats.new result states.new }
    ensures left { left_of offsets.now seats.new.names seats.new.places 8 + get_or offsets.now next 0
        ≡ left_of offsets.now seats.old.names seats.old.places 8 + get_or offsets.now result 0 }
{
    let _entries = entries;
    let _text = text;
    let count = states.len();
    let mut names = seats.names;
    let mut places = seats.places;
    let mut reached = seats.states;
    let mut next = next;
    for seat in 0..8 {
        if next >= count {
            break;
        }
        if places[seat] < offsets[names[seat] + 1] {
            continue;
        }
        states[names[seat]] = reached[seat];
        names[seat] = next;
        places[seat] = offsets[next];
        reached[seat] = 1;
        next += 1;
    }
    *seats = Seats {
        names,
        places,
        states: reached,
    };
    next
}

// Runs the rest of each of eight names by itself.
fn finish<E: Entries>(
    entries: &E,
    text: &[u8],
    offsets: &[usize],
    seats: &Seats,
    next: usize,
    states: &mut [State],
    steps: &mut Steps,
)
    requires flat { (E.table entries.now).depth_bound ≡ 0 }
    requires offsets { AreOffsets text.now offsets.now (length states.old) }
    requires way { AreUnderWay (E.table entries.now) text.now offsets.now seats.now next states.old }
    requires room { steps.old + left_of offsets.now seats.now.names seats.now.places 8 < 2 ^ 64 }
    ensures long { length states.new ≡ length states.old }
    ensures done { AreAfterTo (E.table entries.now) text.now offsets.now next states.new }
    ensures steps { steps.new ≡ steps.old + left_of offsets.now seats.now.names seats.now.places 8 }
{
    entries.stay_in_bounds();
    look_ups_are_bounded();
    let _ = next;
    for k in 0..8 {
        let name = seats.names[k];
        let tail = &text[seats.places[k]..offsets[name + 1]];
        states[name] = run_from(entries, seats.states[k], tail, steps, &mut LookUps::new());
    }
}
