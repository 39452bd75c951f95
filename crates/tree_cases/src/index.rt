//! The index of a row, tested by the row's words alone, and not by `row_index` or `row_plan`.
ghost use Rattle.std.specs.Prelude.{◌≤◌};

use tree_row::{
    COMPONENT, FREE, KIND, KnownRow, LENGTHS, MOST_ENTRIES, PARENT, SLOT_LENGTH, TEXT_FACTOR,
};

/// Whether the words after the slots are an index of the entries: each used slot but the root's is named by one word, no word
/// from its home to there is 0, and every other word is 0. As different slots are named by different words, it is enough to count
/// those that aren't 0.
pub(crate) fn has_index(row: &KnownRow) -> bool {
    let mut used: usize = 0;
    for slot in 1..row.capacity() + 1 {
        if word(row, SLOT_LENGTH * slot + KIND) == FREE {
            continue;
        }
        if !is_named(row, slot) {
            return false;
        }
        used = used.wrapping_add(1);
    }
    words_of_index(row) == used
}

// Whether a word from the home of a slot on names it, and none before that word is 0.
fn is_named(row: &KnownRow, slot: usize) -> bool
    requires { slot ≤ MOST_ENTRIES }
{
    let base = index_base(row);
    let home = home_of(row, slot);
    for place in (home..row.length()).chain(base..home) {
        let word = word(row, place);
        if word == 0 {
            return false;
        }
        if word == slot as u64 + 1 {
            return true;
        }
    }
    false
}

// The place of the word at which the search for the entry of a slot begins.
fn home_of(row: &KnownRow, slot: usize) -> usize
    requires { slot ≤ MOST_ENTRIES }
{
    let first = SLOT_LENGTH * slot;
    let length = word(row, first + LENGTHS) % TEXT_FACTOR;
    let mut hash = word(row, first + PARENT);
    for i in 0..length as usize {
        let bytes = word(row, first + COMPONENT + i / 8).to_le_bytes();
        hash = hash.wrapping_mul(31).wrapping_add(u64::from(bytes[i % 8]));
    }
    let base = index_base(row);
    let size = row.length().saturating_sub(base).max(1);
    // The hash has 32 bits.
    base + hash as usize % (1 << 32) % size
}

// How many words of the index aren't 0.
fn words_of_index(row: &KnownRow) -> usize {
    let mut count: usize = 0;
    for place in index_base(row)..row.length() {
        if word(row, place) != 0 {
            count = count.wrapping_add(1);
        }
    }
    count
}

// Where the words of the slots end.
fn index_base(row: &KnownRow) -> usize {
    SLOT_LENGTH * (row.capacity() + 1)
}

// The word at a place; past the row's end there are zeros.
fn word(row: &KnownRow, place: usize) -> u64 {
    if place < row.length() {
        row.cell(place)
    } else {
        0
    }
}
