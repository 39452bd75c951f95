//! Rows that encode no tree: over any words, walking and naming terminate.
use crate::rows::{Slot, row_of};
use directory_tree::Last;
use path_lookup::{Scratch, WalkFault};
use std::alloc::Global;
use std::test::Fail;
use test_parts::path;
use tree_row::{DIRECTORY, FILE, KnownRow, LINK, RowLook, reach};

pub(crate) const SMALL: [Slot<'static>; 3] = [
    Slot {
        number: 1,
        kind: DIRECTORY,
        node: 2,
        parent: 0,
        component: b"a",
        text: b"",
    },
    Slot {
        number: 2,
        kind: FILE,
        node: 3,
        parent: 1,
        component: b"f",
        text: b"",
    },
    Slot {
        number: 3,
        kind: LINK,
        node: 4,
        parent: 0,
        component: b"l",
        text: b"a/f",
    },
];

// 0, 1, the capacity, the slot's own number, and the greatest word. In the index 3 and 4 name slots 2 and 3.
fn words_for(place: usize) -> [u64; 5] {
    [0, 1, 3, place as u64 / 164, 0xffff_ffff_ffff_ffff]
}

// Whether walking and naming terminate, and a name begins as names do.
fn ends(row: KnownRow) -> Result<(KnownRow, bool), Fail> {
    let mut look = RowLook::new(row);
    let mut room = [0; 4096];
    let mut fine = true;
    for text in [b"/l".as_slice(), b"/a/f", b"/a/../a/."] {
        let end = reach(
            &mut look,
            &path(text)?,
            Last::Follow,
            &mut Scratch::new(),
            &mut room,
        );
        fine = fine
            && match end {
                Ok(reached) => reached.length > 0 && room[0] == b'/',
                Err(WalkFault::Refused(_)) | Err(WalkFault::Torn) => true,
            };
    }
    Ok((look.into_cells(), fine))
}

/// Sets a word, if the row has the place.
pub(crate) fn set(row: &mut KnownRow, place: usize, word: u64) {
    if place < row.length() {
        row.set(place, word);
    }
}

// Whether everything terminates when one word at a time is replaced.
fn ends_with_one_torn(alloc: Global) -> Result<bool, Fail> {
    let mut row = row_of(alloc, 3, &SMALL)?;
    for place in 0..row.length() {
        for word in words_for(place) {
            let before = if place < row.length() {
                row.cell(place)
            } else {
                0
            };
            set(&mut row, place, word);
            let (after, fine) = ends(row)?;
            if !fine {
                return Ok(false);
            }
            row = after;
            set(&mut row, place, before);
        }
    }
    Ok(true)
}

#[test]
fn one_word_is_torn(rt: HostRuntime) -> Result<(), Fail> {
    assert!(rt; ends_with_one_torn(rt.alloc())?);
    Ok(())
}

#[test]
fn every_word_is_torn(rt: HostRuntime) -> Result<(), Fail> {
    for which in 0..5 {
        let mut row = row_of(rt.alloc(), 3, &SMALL)?;
        for place in 0..row.length() {
            set(&mut row, place, words_for(place)[which]);
        }
        let (_, fine) = ends(row)?;
        assert!(rt; fine);
    }
    Ok(())
}
