//! Tallies after cells that no plan sets, or that change an entry's directory, compared with what the words of all slots say.
use crate::followed::Followed;
use std::process::Abort;
use std::test::Fail;
use test_parts::Random;
use tree_row::{DIRECTORY, FILE, FREE, KIND, LINK, NODE, PARENT, SLOT_LENGTH};

const MOST: u64 = u64::MAX;

// Directories in slots 1 and 2, a file in slot 3 in the first one, and five free slots.
fn two_directories(rt: &impl Abort, row: &mut Followed) -> Result<(), Fail> {
    for (slot, kind, parent) in [(1, DIRECTORY, 0), (2, DIRECTORY, 0), (3, FILE, 1)] {
        row.put(slot, PARENT, parent);
        row.put(slot, KIND, kind);
    }
    assert!(rt; row.agrees()?);
    assert_eq!(rt; row.tally.first_free(), Some(4));
    Ok(())
}

// Sets a cell, and compares.
fn step(
    rt: &impl Abort,
    row: &mut Followed,
    slot: usize,
    index: usize,
    word: u64,
) -> Result<(), Fail> {
    row.put(slot, index, word);
    assert!(rt; row.agrees()?, "{slot} {index} {word}");
    Ok(())
}

#[test]
fn renames_move_an_entry(rt: HostRuntime) -> Result<(), Fail> {
    let mut row = Followed::new(rt.alloc(), 8)?;
    two_directories(&rt, &mut row)?;
    // The root's directory has the other two anyway.
    for parent in [2, 0, 1, 2, 2, 3, 1] {
        step(&rt, &mut row, 3, PARENT, parent)?;
        assert_eq!(rt; row.is_empty(0), Some(false));
        for directory in 1..4 {
            let wanted = directory as u64 != parent;
            assert_eq!(rt;
                row.is_empty(directory),
                Some(wanted),
                "{parent} {directory}"
            );
        }
    }
    Ok(())
}

// A rename to the place of another entry frees its slot before.
#[test]
fn renames_replace_an_entry(rt: HostRuntime) -> Result<(), Fail> {
    let mut row = Followed::new(rt.alloc(), 8)?;
    two_directories(&rt, &mut row)?;
    step(&rt, &mut row, 4, KIND, LINK)?;
    step(&rt, &mut row, 4, PARENT, 2)?;
    step(&rt, &mut row, 4, KIND, FREE)?;
    assert_eq!(rt; row.is_empty(2), Some(true));
    assert_eq!(rt; row.tally.first_free(), Some(4));
    step(&rt, &mut row, 3, PARENT, 2)?;
    assert_eq!(rt; row.is_empty(1), Some(true));
    assert_eq!(rt; row.is_empty(2), Some(false));
    Ok(())
}

// An entry is counted once, and so one removal is enough.
#[test]
fn the_same_words_change_nothing(rt: HostRuntime) -> Result<(), Fail> {
    let mut row = Followed::new(rt.alloc(), 8)?;
    two_directories(&rt, &mut row)?;
    for _ in 0..3 {
        step(&rt, &mut row, 3, KIND, FILE)?;
        step(&rt, &mut row, 3, PARENT, 1)?;
        step(&rt, &mut row, 5, KIND, FREE)?;
        step(&rt, &mut row, 5, PARENT, 0)?;
    }
    assert_eq!(rt; row.tally.first_free(), Some(4));
    step(&rt, &mut row, 3, KIND, FREE)?;
    assert_eq!(rt; row.is_empty(1), Some(true));
    assert_eq!(rt; row.tally.first_free(), Some(3));
    Ok(())
}

// The entry is in no directory of the row, and counts again as soon as it is in one.
#[test]
fn parents_past_the_slots(rt: HostRuntime) -> Result<(), Fail> {
    let mut row = Followed::new(rt.alloc(), 8)?;
    two_directories(&rt, &mut row)?;
    for parent in [9, 16385, 1 << 32, (1 << 32) + 1, 1 << 63, MOST] {
        step(&rt, &mut row, 3, PARENT, parent)?;
        assert_eq!(rt; row.is_empty(1), Some(true), "{parent}");
        assert_eq!(rt; row.tally.first_free(), Some(4), "{parent}");
        step(&rt, &mut row, 3, PARENT, 1)?;
        assert_eq!(rt; row.is_empty(1), Some(false), "{parent}");
    }
    Ok(())
}

// A slot of such a kind isn't free, and its entry is one of its directory.
#[test]
fn kinds_above_3(rt: HostRuntime) -> Result<(), Fail> {
    let mut row = Followed::new(rt.alloc(), 8)?;
    two_directories(&rt, &mut row)?;
    for kind in [4, 255, 256, 1 << 32, 1 << 63, MOST] {
        step(&rt, &mut row, 4, PARENT, 2)?;
        step(&rt, &mut row, 4, KIND, kind)?;
        assert_eq!(rt; row.is_empty(2), Some(false), "{kind}");
        assert_eq!(rt; row.tally.first_free(), Some(5), "{kind}");
        step(&rt, &mut row, 4, KIND, FREE)?;
        assert_eq!(rt; row.is_empty(2), Some(true), "{kind}");
        assert_eq!(rt; row.tally.first_free(), Some(4), "{kind}");
    }
    Ok(())
}

// The root's slot is never free, and it holds no directory's entry.
#[test]
fn the_roots_cells_say_nothing(rt: HostRuntime) -> Result<(), Fail> {
    let mut row = Followed::new(rt.alloc(), 8)?;
    two_directories(&rt, &mut row)?;
    for kind in [FREE, FILE, 4, MOST, DIRECTORY] {
        for parent in [2, 0, MOST] {
            step(&rt, &mut row, 0, KIND, kind)?;
            step(&rt, &mut row, 0, PARENT, parent)?;
            assert_eq!(rt; row.is_empty(2), Some(true), "{kind} {parent}");
            assert_eq!(rt; row.tally.first_free(), Some(4), "{kind} {parent}");
        }
    }
    Ok(())
}

// No other cell of a slot matters, and none past the slots, as those of the index are.
#[test]
fn other_cells_say_nothing(rt: HostRuntime) -> Result<(), Fail> {
    let mut row = Followed::new(rt.alloc(), 8)?;
    two_directories(&rt, &mut row)?;
    for index in 0..SLOT_LENGTH {
        if index != KIND && index != PARENT {
            step(&rt, &mut row, 3, index, MOST)?;
            step(&rt, &mut row, 4, index, MOST)?;
        }
        step(&rt, &mut row, 9, index, 1)?;
    }
    for place in [usize::MAX, usize::MAX - 1, 164 << 32] {
        row.tally.set(place, 1);
        assert!(rt; row.agrees()?, "{place}");
    }
    assert_eq!(rt; row.tally.first_free(), Some(4));
    Ok(())
}

// Any words, in any order.
#[test]
fn drawn_cells(rt: HostRuntime) -> Result<(), Fail> {
    let words = [0, 0, 0, 1, 2, 3, 4, 63, 64, 65, 66, MOST];
    let cells = [KIND, KIND, PARENT, NODE];
    let mut random = Random::new(1);
    let mut row = Followed::new(rt.alloc(), 65)?;
    for _ in 0..3000 {
        let slot = random.below(68);
        let index = cells[random.below(4)];
        let word = words[random.below(12)];
        step(&rt, &mut row, slot, index, word)?;
    }
    Ok(())
}
