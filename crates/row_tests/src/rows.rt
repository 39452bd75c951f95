//! Rows made of tables of entries. Their index is made here, without `row_index`.
use std::alloc::Global;
use std::test::Fail;
use tree_row::{
    COMPONENT, DIRECTORY, FILE, FREE, KIND, KnownRow, LENGTHS, LINK, NODE, PARENT, SLOT_LENGTH,
    TEXT, TEXT_FACTOR,
};

/// What a slot's cells say.
#[derive(Clone, Copy)]
pub(crate) struct Slot<'a> {
    pub number: usize,
    pub kind: u64,
    pub node: u64,
    pub parent: u64,
    pub component: &'a [u8],
    pub text: &'a [u8],
}

/// A directory, a file in it, links to both and one to itself, and a free slot that still says what another one says.
pub(crate) const SLOTS: [Slot<'static>; 6] = [
    Slot {
        number: 5,
        kind: DIRECTORY,
        node: 2,
        parent: 0,
        component: b"a_long_directory",
        text: b"",
    },
    Slot {
        number: 2,
        kind: FILE,
        node: 3,
        parent: 5,
        component: b"file.of.17.bytes.",
        text: b"",
    },
    Slot {
        number: 1,
        kind: LINK,
        node: 4,
        parent: 5,
        component: b"up",
        text: b"../l/file.of.17.bytes.",
    },
    Slot {
        number: 7,
        kind: LINK,
        node: 5,
        parent: 0,
        component: b"l",
        text: b"a_long_directory",
    },
    Slot {
        number: 3,
        kind: LINK,
        node: 6,
        parent: 0,
        component: b"ring",
        text: b"/ring",
    },
    Slot {
        number: 4,
        kind: FREE,
        node: 9,
        parent: 0,
        component: b"l",
        text: b"",
    },
];

/// The row of these slots, with room for `capacity` entries. Its index names those that aren't free, added in this order.
pub(crate) fn row_of(alloc: Global, capacity: usize, slots: &[Slot]) -> Result<KnownRow, Fail> {
    if capacity > 16384 {
        return Err("a capacity")?;
    }
    let mut row = KnownRow::new(alloc, capacity).ok().ok_or("memory")?;
    for slot in slots {
        put(&mut row, slot)?;
        if slot.kind != FREE {
            add_to_index(&mut row, slot.parent, slot.component, slot.number)?;
        }
    }
    Ok(row)
}

/// The place of the index's word at which the search for an entry begins. The index follows the slots.
pub(crate) fn home_place(row: &KnownRow, parent: u64, component: &[u8]) -> Result<usize, Fail> {
    let base = SLOT_LENGTH * (row.capacity() + 1);
    let size = row.length().checked_sub(base).ok_or("an index")?;
    let mut hash = parent;
    for byte in component {
        hash = hash.wrapping_mul(31).wrapping_add(u64::from(*byte));
    }
    // The hash has 32 bits.
    let home = (hash as usize % (1 << 32))
        .checked_rem(size)
        .ok_or("an index")?;
    Ok(base.checked_add(home).ok_or("a place")?)
}

/// The first word that is 0, from the home of an entry on, then names a slot.
pub(crate) fn add_to_index(
    row: &mut KnownRow,
    parent: u64,
    component: &[u8],
    number: usize,
) -> Result<(), Fail> {
    let home = home_place(row, parent, component)?;
    let base = SLOT_LENGTH * (row.capacity() + 1);
    for place in (home..row.length()).chain(base..home) {
        if place < row.length() && row.cell(place) == 0 {
            row.set(place, (number as u64).wrapping_add(1));
            return Ok(());
        }
    }
    Err("a full index")?
}

fn put(row: &mut KnownRow, slot: &Slot) -> Result<(), Fail> {
    let base = SLOT_LENGTH.checked_mul(slot.number).ok_or("a slot")?;
    if slot.component.len() > 255 || slot.text.len() > 1023 {
        return Err("a long text")?;
    }
    let lengths = slot.component.len() as u64 + TEXT_FACTOR * slot.text.len() as u64;
    set(row, base, KIND, slot.kind)?;
    set(row, base, NODE, slot.node)?;
    set(row, base, PARENT, slot.parent)?;
    set(row, base, LENGTHS, lengths)?;
    for (index, bytes) in (COMPONENT..TEXT).zip(slot.component.chunks(8)) {
        set(row, base, index, packed(bytes))?;
    }
    for (index, bytes) in (TEXT..SLOT_LENGTH).zip(slot.text.chunks(8)) {
        set(row, base, index, packed(bytes))?;
    }
    Ok(())
}

fn set(row: &mut KnownRow, base: usize, index: usize, word: u64) -> Result<(), Fail> {
    let place = base.checked_add(index).ok_or("a place")?;
    if place >= row.length() {
        return Err("a place past the row")?;
    }
    row.set(place, word);
    Ok(())
}

// Eight bytes or less as a word, the lowest first.
fn packed(bytes: &[u8]) -> u64 {
    let mut word = 0;
    for byte in bytes.iter().rev() {
        word = word << 8 | u64::from(*byte);
    }
    word
}
