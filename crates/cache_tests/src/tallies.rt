//! Tallies of rows that are filled and freed again, compared with what the words of all slots say.
use crate::followed::Followed;
use std::alloc::Global;
use std::process::Abort;
use std::test::Fail;
use test_parts::Random;
use tree_row::{COMPONENT, FREE, KIND, LENGTHS, NODE, PARENT};

// Free slots are noted in words of 64 bits, and 64 of these words in a word above them.
const CAPACITIES: [usize; 9] = [0, 1, 2, 63, 64, 65, 1024, 4096, 16384];

// The cells of an entry in the order in which a plan sets them. Until its directory is set, the slot names that of its last entry.
const KIND_FIRST: [usize; 5] = [KIND, NODE, PARENT, LENGTHS, COMPONENT];

const KIND_LAST: [usize; 5] = [COMPONENT, LENGTHS, PARENT, NODE, KIND];

// How a row is filled.
#[derive(Clone, Copy)]
struct Filling<'a> {
    // Its slots past the root's.
    slots: &'a [usize],
    // The cells of each entry.
    cells: &'a [usize; 5],
    // Of how many entries the tally is compared at one.
    pace: usize,
}

fn is_empty_everywhere(row: &Followed) -> bool {
    for directory in 0..row.tally.capacity() + 1 {
        if row.is_empty(directory) != Some(true) {
            return false;
        }
    }
    true
}

// The slots past the root's.
fn slots_of(alloc: Global, capacity: usize) -> Result<Vec<usize>, Fail> {
    let mut slots = Vec::new(alloc);
    for slot in 0..capacity {
        slots.push(slot.wrapping_add(1))?;
    }
    Ok(slots)
}

// An entry's directory: one whose slot was filled before, so that the tree is as deep as a heap of its slots.
fn directory_of(slots: &[usize], step: usize) -> u64 {
    if step == 0 || step > slots.len() {
        return 0;
    }
    slots[(step - 1) / 2] as u64
}

// Sets the cells of an entry, and compares after each if the tally is compared here.
fn add(
    rt: &impl Abort,
    row: &mut Followed,
    filling: &Filling,
    step: usize,
    slot: usize,
) -> Result<(), Fail> {
    for index in filling.cells {
        let word = match *index {
            KIND => 1 + slot as u64 % 3,
            PARENT => directory_of(filling.slots, step),
            _ => slot as u64,
        };
        row.put(slot, *index, word);
        if step % filling.pace.max(1) == 0 {
            assert!(rt; row.agrees()?, "{slot} {index}");
        }
    }
    Ok(())
}

fn fill(rt: &impl Abort, row: &mut Followed, filling: &Filling) -> Result<(), Fail> {
    for (step, slot) in filling.slots.iter().enumerate() {
        add(rt, row, filling, step, *slot)?;
    }
    assert_eq!(rt; row.tally.first_free(), None);
    assert!(rt; row.agrees()?);
    Ok(())
}

// The entry that was added last is removed first, as no directory is removed before its entries.
fn free(rt: &impl Abort, row: &mut Followed, filling: &Filling) -> Result<(), Fail> {
    for (step, slot) in filling.slots.iter().enumerate().rev() {
        row.put(*slot, KIND, FREE);
        if step % filling.pace.max(1) == 0 {
            assert!(rt; row.agrees()?, "{slot}");
        }
    }
    assert_eq!(rt; row.tally.first_free(), Some(1));
    assert!(rt; is_empty_everywhere(row));
    Ok(())
}

fn fill_and_free(rt: &impl Abort, row: &mut Followed, filling: &Filling) -> Result<(), Fail> {
    fill(rt, row, filling)?;
    free(rt, row, filling)
}

// Puts numbers in a drawn order.
fn shuffle(slots: &mut [usize], random: &mut Random) {
    for i in 0..slots.len() {
        let j = random.below(i + 1);
        slots.swap(i, j);
    }
}

// In order and, once the slots are freed, in a drawn order.
fn fill_twice(
    rt: &impl Abort,
    alloc: Global,
    capacity: usize,
    cells: &[[usize; 5]; 2],
    pace: usize,
) -> Result<(), Fail> {
    let mut row = Followed::new(alloc, capacity)?;
    let mut slots = slots_of(alloc, capacity)?;
    let in_order = Filling {
        slots: &slots,
        cells: &cells[0],
        pace,
    };
    fill_and_free(rt, &mut row, &in_order)?;
    shuffle(&mut slots, &mut Random::new(1));
    let drawn = Filling {
        slots: &slots,
        cells: &cells[1],
        pace,
    };
    fill_and_free(rt, &mut row, &drawn)
}

#[test]
fn new_tallies_are_those_of_roots(rt: HostRuntime) -> Result<(), Fail> {
    for capacity in CAPACITIES {
        let row = Followed::new(rt.alloc(), capacity)?;
        let first = if capacity == 0 { None } else { Some(1) };
        assert_eq!(rt; row.tally.capacity(), capacity);
        assert_eq!(rt; row.tally.first_free(), first, "{capacity}");
        assert!(rt; is_empty_everywhere(&row), "{capacity}");
    }
    Ok(())
}

#[test]
fn small_rows_are_compared_after_each_cell(rt: HostRuntime) -> Result<(), Fail> {
    for capacity in [1, 2, 63, 64, 65] {
        fill_twice(&rt, rt.alloc(), capacity, &[KIND_LAST, KIND_FIRST], 1)?;
        fill_twice(&rt, rt.alloc(), capacity, &[KIND_FIRST, KIND_LAST], 1)?;
    }
    Ok(())
}

#[test]
fn large_rows_are_compared_now_and_then(rt: HostRuntime) -> Result<(), Fail> {
    for (capacity, pace) in [(1024, 127), (4096, 1021)] {
        fill_twice(&rt, rt.alloc(), capacity, &[KIND_FIRST, KIND_FIRST], pace)?;
    }
    Ok(())
}
