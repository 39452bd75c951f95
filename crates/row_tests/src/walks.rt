//! Walks and names over a row all of whose words are known.
use crate::rows::{SLOTS, Slot, row_of};
use change_checks::ChangeLook;
use directory_tree::Last;
use names::Errno;
use path_lookup::{Look, Scratch, WalkFault, name_of_place, resolve};
use std::process::Abort;
use std::test::Fail;
use test_parts::path;
use tree_row::{DIRECTORY, FILE, KnownRow, RowLook, reach};

// A path, whether a link at its end is followed, and the name of what it leads to.
type Walk<'a> = (&'a [u8], Last, Result<&'a [u8], Errno>);

// Whether a path leads to what has this name, or is refused with this error.
fn leads_there(look: &mut RowLook<KnownRow>, row: &Walk) -> Result<bool, Fail> {
    let (text, last, want) = row;
    let mut room = [0; 4096];
    match reach(look, &path(text)?, *last, &mut Scratch::new(), &mut room) {
        Ok(reached) => Ok(Ok(&room[..reached.length]) == *want),
        Err(WalkFault::Refused(errno)) => Ok(Err(errno) == *want),
        Err(WalkFault::Torn) => Ok(false),
    }
}

fn expect_walks(rt: &impl Abort, look: &mut RowLook<KnownRow>, rows: &[Walk]) -> Result<(), Fail> {
    for row in rows {
        assert!(rt; leads_there(look, row)?, "{row:?}");
    }
    Ok(())
}

/// Walks in the row of `SLOTS`.
pub(crate) const WALKS: [Walk<'static>; 16] = [
    (b"/", Last::Follow, Ok(b"/")),
    (b"/..", Last::Follow, Ok(b"/")),
    (
        b"/a_long_directory",
        Last::Follow,
        Ok(b"/a_long_directory/"),
    ),
    (
        b"/a_long_directory/file.of.17.bytes.",
        Last::Follow,
        Ok(b"/a_long_directory/file.of.17.bytes."),
    ),
    (
        b"/l/../l/file.of.17.bytes.",
        Last::Follow,
        Ok(b"/a_long_directory/file.of.17.bytes."),
    ),
    (
        b"/a_long_directory/up",
        Last::Follow,
        Ok(b"/a_long_directory/file.of.17.bytes."),
    ),
    (
        b"/a_long_directory/up",
        Last::Stay,
        Ok(b"/a_long_directory/up"),
    ),
    (b"/l", Last::Stay, Ok(b"/l")),
    (b"/ring", Last::Stay, Ok(b"/ring")),
    (b"/ring", Last::Follow, Err(Errno::ELOOP)),
    // One more byte, one less, and another last one.
    (b"/a_long_directory_", Last::Follow, Err(Errno::ENOENT)),
    (b"/a_long_director", Last::Follow, Err(Errno::ENOENT)),
    (b"/a_long_directorx", Last::Follow, Err(Errno::ENOENT)),
    // It is in another directory.
    (b"/file.of.17.bytes.", Last::Follow, Err(Errno::ENOENT)),
    (b"/l/file.of.17.bytes./", Last::Follow, Err(Errno::ENOTDIR)),
    (b"/l/file.of.17.bytes./x", Last::Follow, Err(Errno::ENOTDIR)),
];

#[test]
fn walks_over_a_row(rt: HostRuntime) -> Result<(), Fail> {
    let row = row_of(rt.alloc(), 8, &SLOTS)?;
    expect_walks(&rt, &mut RowLook::new(row), &WALKS)
}

#[test]
fn the_opening_row_is_empty(rt: HostRuntime) -> Result<(), Fail> {
    let mut look = RowLook::new(row_of(rt.alloc(), 1, &[])?);
    let root = look.root();
    assert_eq!(rt; root.slot(), 0);
    assert_eq!(rt; look.is_empty(root), Ok(true));
    assert_eq!(rt; look.has_room(), Ok(true));
    assert_eq!(rt; look.most_entries(), 1);
    expect_walks(
        &rt,
        &mut look,
        &[
            (b"/", Last::Follow, Ok(b"/")),
            (b"/a", Last::Follow, Err(Errno::ENOENT)),
        ],
    )
}

#[test]
fn a_full_row_has_no_room(rt: HostRuntime) -> Result<(), Fail> {
    // The file is in the last slot.
    let slots = [
        Slot {
            number: 1,
            kind: DIRECTORY,
            node: 2,
            parent: 0,
            component: b"a",
            text: b"",
        },
        Slot {
            number: 2,
            kind: FILE,
            node: 3,
            parent: 1,
            component: b"f",
            text: b"",
        },
    ];
    let mut look = RowLook::new(row_of(rt.alloc(), 2, &slots)?);
    assert_eq!(rt; look.has_room(), Ok(false));
    assert_eq!(rt; look.most_entries(), 2);
    let directory = resolve(&mut look, &path(b"/a")?, Last::Follow, &mut Scratch::new())
        .ok()
        .ok_or("a walk")?;
    assert_eq!(rt; look.is_empty(directory), Ok(false));
    let root = look.root();
    assert_eq!(rt; look.is_empty(root), Ok(false));
    Ok(())
}

#[test]
fn names_of_places(rt: HostRuntime) -> Result<(), Fail> {
    let mut look = RowLook::new(row_of(rt.alloc(), 8, &SLOTS)?);
    let mut room = [0; 4096];
    let got = name_of_place(&mut look, &path(b"/l/new")?, &mut Scratch::new(), &mut room);
    assert_eq!(rt; got, Ok(21));
    assert!(rt; room.starts_with(b"/a_long_directory/new"));
    Ok(())
}
