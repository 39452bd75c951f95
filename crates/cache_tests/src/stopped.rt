//! Keepers that stop in the middle of a change: from then on each walk is concurrent with it, and none waits for its end.
use crate::fixtures::{keeper_after, walk, walk_on, walker};
use crate::lines::change;
use dentry_cache::{Attempt, Busy, Walker};
use directory_tree::{Change, LinkBytes};
use names::Errno;
use path_lookup::{NAME_ROOM, WalkFault};
use std::alloc::Global;
use std::process::Abort;
use std::test::Fail;
use test_parts::path;

const FIRST: [&str; 4] = [
    "mkdir /a",
    "mkdir /a/directory",
    "create /a/directory/f",
    "mkdir /b",
];

// Readers of a row whose keeper has stopped.
#[derive(Drop)]
struct Left {
    // A walk that began before that.
    attempt: Attempt,
    walker: Walker,
}

// A keeper makes the first changes, and then sets the first `cells` cells of one more. It is gone afterwards.
fn stop(alloc: Global, made: &Change<'_>, cells: usize) -> Result<Result<Left, Errno>, Fail> {
    let mut keeper = keeper_after(alloc, 5, &FIRST)?;
    let attempt = walker(&mut keeper)?.begin();
    let walker = walker(&mut keeper)?;
    match keeper.stop_amid(made, cells) {
        Ok(_) => Ok(Ok(Left { attempt, walker })),
        Err((_, errno)) => Ok(Err(errno)),
    }
}

// If an allocation fails, tries again with another keeper.
fn stopped(alloc: Global, made: &Change<'_>, cells: usize) -> Result<Left, Fail> {
    match stop(alloc, made, cells)? {
        Ok(left) => Ok(left),
        Err(_) => Ok(
            stop(alloc, made, cells)?
                .ok()
                .ok_or("a change that is refused")?,
        ),
    }
}

// The paths that are walked: some lead to what was moved and made.
const PATHS: [&str; 7] = [
    "/a/directory/f",
    "/b/moved.directory/f",
    "/l",
    "/l/../a/directory",
    "/b/../a/.",
    "/x",
    "/",
];

// No walk ends well. Whatever words it read, it terminates.
fn expect_busy(
    rt: &impl Abort,
    alloc: Global,
    made: &Change<'_>,
    cells: usize,
) -> Result<(), Fail> {
    let left = stopped(alloc, made, cells)?;
    let mut room = [0; NAME_ROOM];
    let walked = walk_on(left.attempt, b"/a/directory/f", &mut room)?;
    assert_eq!(rt; walked.end, Err(Busy { began: 8, ended: 9 }), "{cells}");
    let mut walker = left.walker;
    for text in PATHS {
        let walked = walk(walker, text.as_bytes(), &mut room)?;
        assert_eq!(rt;
            walked.end,
            Err(Busy { began: 9, ended: 9 }),
            "{text} {cells}"
        );
        walker = walked.walker;
    }
    Ok(())
}

// A rename that sets six cells: the parent, the lengths, two of the component, and two of the index, the old one first.
fn rename<'a>() -> Result<Change<'a>, Fail> {
    change("rename /a/directory /b/moved.directory")
}

#[test]
fn a_rename_stops(rt: HostRuntime) -> Result<(), Fail> {
    for cells in 0..8 {
        expect_busy(&rt, rt.alloc(), &rename()?, cells)?;
    }
    Ok(())
}

// 1,023 bytes: 341 components, each of which leads only upwards.
fn long_text() -> [u8; 1023] {
    let mut text = [b'.'; 1023];
    for i in 0..341 {
        text[3 * i] = b'/';
    }
    text
}

// The kind, the node, the lengths, the component, 128 cells of the text, and one of the index.
#[test]
fn a_symlink_stops(rt: HostRuntime) -> Result<(), Fail> {
    let text = long_text();
    let made = Change::Symlink(LinkBytes::new(&text), path(b"/l")?);
    for cells in 0..135 {
        expect_busy(&rt, rt.alloc(), &made, cells)?;
    }
    Ok(())
}

// How much of a change is seen by concurrent walks, once its first `cells` cells are set.
fn expect_seen(
    rt: &impl Abort,
    alloc: Global,
    made: &Change<'_>,
    cells: usize,
    rows: &[(&str, Result<usize, WalkFault>)],
) -> Result<(), Fail> {
    let mut walker = stopped(alloc, made, cells)?.walker;
    for (text, length) in rows {
        let walked = walk(walker, text.as_bytes(), &mut [0; NAME_ROOM])?;
        assert_eq!(rt; walked.length, *length, "{text} {cells}");
        walker = walked.walker;
    }
    Ok(())
}

const ABSENT: Result<usize, WalkFault> = Err(WalkFault::Refused(Errno::ENOENT));

// From the first cell on it isn't where it was, and until the last one it isn't found anywhere else, since only that one names its
// slot where the search for its new component begins.
#[test]
fn so_many_cells_are_set(rt: HostRuntime) -> Result<(), Fail> {
    let (old, half, new) = ("/a/directory/f", "/b/directory/f", "/b/moved.directory/f");
    let made = rename()?;
    expect_seen(&rt, rt.alloc(), &made, 0, &[(old, Ok(14)), (new, ABSENT)])?;
    for cells in 1..6 {
        expect_seen(
            &rt,
            rt.alloc(),
            &made,
            cells,
            &[(old, ABSENT), (half, ABSENT), (new, ABSENT)],
        )?;
    }
    for cells in [6, usize::MAX] {
        expect_seen(
            &rt,
            rt.alloc(),
            &made,
            cells,
            &[(old, ABSENT), (half, ABSENT), (new, Ok(20))],
        )?;
    }
    Ok(())
}

// The searches for both components begin at the same word of the index, so a rename sets only the two cells of the component. Between
// them a walk finds a name that no directory ever had.
#[test]
fn half_a_name_is_set(rt: HostRuntime) -> Result<(), Fail> {
    let (old, half, new) = ("/a/directory/f", "/a/DIRECTORy/f", "/a/DIRECTORY/f");
    let made = change("rename /a/directory /a/DIRECTORY")?;
    let rows = [
        (0, [(old, Ok(14)), (half, ABSENT), (new, ABSENT)]),
        (1, [(old, ABSENT), (half, Ok(14)), (new, ABSENT)]),
        (2, [(old, ABSENT), (half, ABSENT), (new, Ok(14))]),
    ];
    for (cells, seen) in rows {
        expect_seen(&rt, rt.alloc(), &made, cells, &seen)?;
    }
    Ok(())
}

// A change that is refused isn't opened, and the keeper is returned.
#[test]
fn a_refused_change_does_not_stop(rt: HostRuntime) -> Result<(), Fail> {
    let mut keeper = keeper_after(rt.alloc(), 5, &FIRST)?;
    let walker = walker(&mut keeper)?;
    let Err((keeper, refusal)) = keeper.stop_amid(&change("mkdir /a")?, 1) else {
        return Err("a keeper that stopped")?;
    };
    assert_eq!(rt; refusal, Errno::EEXIST);
    assert_eq!(rt; keeper.version(), 4);
    let walked = walk(walker, b"/b", &mut [0; NAME_ROOM])?;
    assert_eq!(rt; (walked.length, walked.end), (Ok(3), Ok(4)));
    Ok(())
}
