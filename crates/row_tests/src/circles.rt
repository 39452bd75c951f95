//! Directories in a circle, each the parent of another one: no tree has them, but such words may be read while the row changes.
use crate::lies::{LyingCells, reach_lying};
use crate::rows::{Slot, add_to_index, row_of};
use directory_tree::Last;
use names::Errno;
use path_lookup::{Scratch, WalkFault, resolve};
use std::alloc::Global;
use std::test::Fail;
use test_parts::path;
use tree_row::{DIRECTORY, LINK, PARENT, RowLook, SLOT_LENGTH};

// Three directories, each in the one before, and a link in the first.
const CHAIN: [Slot<'static>; 4] = [
    Slot {
        number: 1,
        kind: DIRECTORY,
        node: 2,
        parent: 0,
        component: b"a",
        text: b"",
    },
    Slot {
        number: 2,
        kind: DIRECTORY,
        node: 3,
        parent: 1,
        component: b"b",
        text: b"",
    },
    Slot {
        number: 3,
        kind: DIRECTORY,
        node: 4,
        parent: 2,
        component: b"c",
        text: b"",
    },
    Slot {
        number: 4,
        kind: LINK,
        node: 5,
        parent: 1,
        component: b"l",
        text: b"a/l",
    },
];

// The first `directories` directories in a circle: the parent of the first one is the last one. With one honest read, a walk finds
// the first one in the root before it meets the circle. The index names that one twice: in the root, and in the last one.
fn circle(alloc: Global, directories: u64, honest_reads: u64) -> Result<LyingCells, Fail> {
    let mut row = row_of(alloc, 4, &CHAIN)?;
    add_to_index(&mut row, directories, b"a", 1)?;
    Ok(LyingCells {
        row,
        place: SLOT_LENGTH + PARENT,
        word: directories,
        honest_reads,
    })
}

// The slot that a path leads to.
fn slot_of(cells: LyingCells, text: &[u8]) -> Result<Result<usize, WalkFault>, Fail> {
    let mut look = RowLook::new(cells);
    match resolve(&mut look, &path(text)?, Last::Follow, &mut Scratch::new()) {
        Ok(entry) => Ok(Ok(entry.slot())),
        Err(fault) => Ok(Err(fault)),
    }
}

// The longest path of one-byte components, round and round through `directories` directories.
fn longest(directories: usize) -> [u8; 4094] {
    let mut text = [b'/'; 4094];
    for i in 0..2047 {
        text[2 * i + 1] = match i % directories.max(1) {
            0 => b'a',
            1 => b'b',
            _ => b'c',
        };
    }
    text
}

#[test]
fn walks_go_round(rt: HostRuntime) -> Result<(), Fail> {
    let rows: [(u64, &[u8], usize); 9] = [
        (1, b"/a/a/a/a", 1),
        (1, b"/a/../..", 1),
        (2, b"/a/b/a/b", 2),
        (2, b"/a/..", 2),
        (2, b"/a/../..", 1),
        (3, b"/a/b/c/a", 1),
        (3, b"/a/..", 3),
        (3, b"/a/../..", 2),
        (3, b"/a/../../..", 1),
    ];
    for (directories, text, slot) in &rows {
        let led = slot_of(circle(rt.alloc(), *directories, 1)?, text)?;
        assert_eq!(rt; led, Ok(*slot), "{directories}");
    }
    // 2,047 components end where their last one is.
    for (directories, slot) in [(1, 1), (2, 1), (3, 1)] {
        let led = slot_of(
            circle(rt.alloc(), directories, 1)?,
            &longest(directories as usize),
        )?;
        assert_eq!(rt; led, Ok(slot), "{directories}");
    }
    Ok(())
}

#[test]
fn names_grow_too_long(rt: HostRuntime) -> Result<(), Fail> {
    let rows: [(u64, &[u8]); 6] = [
        (1, b"/a"),
        (2, b"/a"),
        (2, b"/a/b"),
        (3, b"/a"),
        (3, b"/a/b"),
        (3, b"/a/b/c"),
    ];
    for (directories, text) in &rows {
        let (_, end) = reach_lying(circle(rt.alloc(), *directories, 1)?, text)?;
        assert_eq!(rt;
            end,
            Err(WalkFault::Refused(Errno::ENAMETOOLONG)),
            "{directories}"
        );
    }
    Ok(())
}

// Following the link leads back to it.
#[test]
fn links_in_a_circle_are_counted(rt: HostRuntime) -> Result<(), Fail> {
    let (_, end) = reach_lying(circle(rt.alloc(), 1, 1)?, b"/a/l")?;
    assert_eq!(rt; end, Err(WalkFault::Refused(Errno::ELOOP)));
    Ok(())
}

#[test]
fn no_walk_from_the_root_finds_a_circle(rt: HostRuntime) -> Result<(), Fail> {
    for directories in 1..4 {
        for text in [b"/a".as_slice(), b"/b", b"/c", b"/a/b/c", b"/l"] {
            let (_, end) = reach_lying(circle(rt.alloc(), directories, 0)?, text)?;
            assert_eq!(rt;
                end,
                Err(WalkFault::Refused(Errno::ENOENT)),
                "{directories}"
            );
        }
    }
    Ok(())
}
