//! Lengths that no component and no text has, read once an entry is found.
use crate::lies::{LyingCells, reach_lying};
use crate::rows::{Slot, add_to_index, row_of};
use crate::torn::{SMALL, set};
use directory_tree::Last;
use names::Errno;
use path_lookup::{Scratch, WalkFault};
use std::alloc::Global;
use std::process::Abort;
use std::test::Fail;
use test_parts::path;
use tree_row::{DIRECTORY, LENGTHS, LINK, RowLook, SLOT_LENGTH, TEXT_FACTOR, reach};

// How long the name is, or why there is none.
type Row = (u64, Result<usize, WalkFault>);

// Cells whose slot returns lengths other than those by which its entry was found.
fn lengths_of(alloc: Global, slot: usize, word: u64) -> Result<LyingCells, Fail> {
    let place = SLOT_LENGTH.checked_mul(slot).ok_or("a slot")?;
    Ok(LyingCells {
        row: row_of(alloc, 3, &SMALL)?,
        place: place.checked_add(LENGTHS).ok_or("a place")?,
        word,
        honest_reads: 1,
    })
}

fn expect_ends(
    rt: &impl Abort,
    alloc: Global,
    slot: usize,
    text: &[u8],
    rows: &[Row],
) -> Result<(), Fail> {
    for (word, wanted) in rows {
        let (_, end) = reach_lying(lengths_of(alloc, slot, *word)?, text)?;
        let length = match end {
            Ok(reached) => Ok(reached.length),
            Err(fault) => Err(fault),
        };
        assert_eq!(rt; length, *wanted, "{word}");
    }
    Ok(())
}

// A component of the greatest length has its bytes put into the name, whatever they are.
#[test]
fn lengths_of_components(rt: HostRuntime) -> Result<(), Fail> {
    expect_ends(
        &rt,
        rt.alloc(),
        1,
        b"/a",
        &[
            (0, Err(WalkFault::Torn)),
            (1, Ok(3)),
            (255, Ok(257)),
            (256, Err(WalkFault::Torn)),
            (65535, Err(WalkFault::Torn)),
            (TEXT_FACTOR, Err(WalkFault::Torn)),
            (u64::MAX, Err(WalkFault::Torn)),
        ],
    )
}

// The slot holds the link `l`, whose text leads to `/a/f`. If the text has the greatest length, the bytes after `f` make a
// component that is longer than any.
#[test]
fn lengths_of_texts(rt: HostRuntime) -> Result<(), Fail> {
    expect_ends(
        &rt,
        rt.alloc(),
        3,
        b"/l",
        &[
            (3 * TEXT_FACTOR, Ok(4)),
            (TEXT_FACTOR, Ok(3)),
            (1023 * TEXT_FACTOR, Err(WalkFault::Refused(Errno::ENOENT))),
            (1024 * TEXT_FACTOR, Err(WalkFault::Torn)),
            (65535 * TEXT_FACTOR, Err(WalkFault::Torn)),
            (u64::MAX, Err(WalkFault::Torn)),
        ],
    )
}

// A link whose text is one component of 300 bytes, and a directory, whose slot the test gives that length, and which the index names
// where the search for that component begins.
fn long_component(text: &[u8]) -> [Slot<'_>; 2] {
    [
        Slot {
            number: 1,
            kind: DIRECTORY,
            node: 2,
            parent: 0,
            component: b"x",
            text: b"",
        },
        Slot {
            number: 2,
            kind: LINK,
            node: 3,
            parent: 0,
            component: b"l",
            text,
        },
    ]
}

#[test]
fn no_component_past_the_longest_is_found(rt: HostRuntime) -> Result<(), Fail> {
    let mut row = row_of(rt.alloc(), 2, &long_component(&[b'x'; 300]))?;
    set(&mut row, SLOT_LENGTH + LENGTHS, 300);
    add_to_index(&mut row, 0, &[b'x'; 300], 1)?;
    let mut room = [0; 4096];
    let end = reach(
        &mut RowLook::new(row),
        &path(b"/l")?,
        Last::Follow,
        &mut Scratch::new(),
        &mut room,
    );
    assert_eq!(rt; end, Err(WalkFault::Refused(Errno::ENOENT)));
    Ok(())
}
