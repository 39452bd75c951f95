//! Changes that are made, and changes that are refused.
use crate::fixtures::{apply, keeper, keeper_after, walk, walk_on, walker};
use crate::lines::change;
use dentry_cache::{Keeper, Walker};
use directory_tree::{Change, LinkBytes};
use names::Errno;
use path_lookup::NAME_ROOM;
use std::process::Abort;
use std::test::Fail;
use test_parts::path;

// Testing a change predicts its outcome, and changes nothing.
fn expect_test(rt: &impl Abort, keeper: &mut Keeper, made: &Change<'_>, refusal: Option<Errno>) {
    let version = keeper.version();
    assert_eq!(rt; keeper.test(made).err(), refusal);
    assert_eq!(rt; keeper.test(made).err(), refusal);
    assert_eq!(rt; keeper.version(), version);
}

// Makes a change, or is refused, and returns the previous version.
fn expect_answer(
    rt: &impl Abort,
    keeper: &mut Keeper,
    made: &Change<'_>,
    refusal: Option<Errno>,
) -> u64 {
    let version = keeper.version();
    let next = version.wrapping_add(1);
    let wanted = refusal.map_or((Ok(next), next), |errno| (Err(errno), version));
    let answer = apply(keeper, made);
    assert_eq!(rt; (answer, keeper.version()), wanted);
    version
}

// A walk that began before a change that is refused ends well, and one that began before a change that is made doesn't.
fn expect(
    rt: &impl Abort,
    keeper: &mut Keeper,
    made: &Change<'_>,
    refusal: Option<Errno>,
) -> Result<(), Fail> {
    let attempt = walker(keeper)?.begin();
    expect_test(rt, keeper, made, refusal);
    let version = expect_answer(rt, keeper, made, refusal);
    let walked = walk_on(attempt, b"/a/f", &mut [0; NAME_ROOM])?;
    match refusal {
        Some(_) => assert_eq!(rt; walked.end, Ok(version)),
        None => assert!(rt; walked.end.is_err()),
    }
    Ok(())
}

fn expect_answers(
    rt: &impl Abort,
    keeper: &mut Keeper,
    rows: &[(&str, Option<Errno>)],
) -> Result<(), Fail> {
    for (line, refusal) in rows {
        expect(rt, keeper, &change(line)?, *refusal)?;
    }
    Ok(())
}

// A row that is full, with a directory that isn't empty, a file in it, an empty directory, and links to the first directory and
// to itself.
const FULL: [&str; 5] = [
    "mkdir /a",
    "create /a/f",
    "mkdir /e",
    "symlink a /l",
    "symlink r /r",
];

#[test]
fn changes_are_refused(rt: HostRuntime) -> Result<(), Fail> {
    let mut keeper = keeper_after(rt.alloc(), 5, &FULL)?;
    expect_answers(
        &rt,
        &mut keeper,
        &[
            ("mkdir /", Some(Errno::EBUSY)),
            ("mkdir /x", Some(Errno::ENOSPC)),
            ("mkdir /a", Some(Errno::EEXIST)),
            ("mkdir /a/f/x", Some(Errno::ENOTDIR)),
            ("create /x/y", Some(Errno::ENOENT)),
            ("create /x/", Some(Errno::EINVAL)),
            ("create /r/x", Some(Errno::ELOOP)),
            ("create /l/g", Some(Errno::ENOSPC)),
            ("symlink a /l", Some(Errno::EEXIST)),
            ("symlink  /x", Some(Errno::ENOENT)),
            ("link /a /x", Some(Errno::EPERM)),
            ("link /a/f /x", Some(Errno::ENOSPC)),
            ("unlink /a", Some(Errno::EISDIR)),
            ("unlink /x", Some(Errno::ENOENT)),
            ("rmdir /a", Some(Errno::ENOTEMPTY)),
            ("rmdir /l", Some(Errno::ENOTDIR)),
            ("rename /a /a/b", Some(Errno::EINVAL)),
            ("rename /e /a", Some(Errno::ENOTEMPTY)),
            ("rename /l /a", Some(Errno::EISDIR)),
            ("rename /a /l", Some(Errno::ENOTDIR)),
        ],
    )?;
    refuse_long_text(&rt, &mut keeper)
}

fn refuse_long_text(rt: &impl Abort, keeper: &mut Keeper) -> Result<(), Fail> {
    let long = Change::Symlink(LinkBytes::new(&[b'/'; 1024]), path(b"/x")?);
    expect(rt, keeper, &long, Some(Errno::ENAMETOOLONG))?;
    assert_eq!(rt; keeper.version(), 5);
    Ok(())
}

#[test]
fn changes_are_made(rt: HostRuntime) -> Result<(), Fail> {
    let mut keeper = keeper(rt.alloc(), 5)?;
    expect_answers(
        &rt,
        &mut keeper,
        &[
            ("mkdir /a", None),
            ("create /a/f", None),
            ("symlink a/f /l", None),
            ("link /a/f /g", None),
            ("rename /g /a/g", None),
            ("rename /g /a/g", Some(Errno::ENOENT)),
            ("mkdir /b/", None),
            ("rename /a /b/a", None),
            ("rename /l /b/a/g", None),
            ("unlink /b/a/g", None),
            ("unlink /b/a/f", None),
            ("rmdir /b/a", None),
            ("rmdir /b", None),
            ("rmdir /b", Some(Errno::ENOENT)),
        ],
    )?;
    assert_eq!(rt; keeper.version(), 12);
    Ok(())
}

// Room for a single entry.
#[test]
fn the_least_row(rt: HostRuntime) -> Result<(), Fail> {
    let mut keeper = keeper(rt.alloc(), 1)?;
    expect_answers(
        &rt,
        &mut keeper,
        &[
            ("create /a", None),
            ("create /b", Some(Errno::ENOSPC)),
            ("rename /a /b", None),
            ("unlink /b", None),
            ("mkdir /b", None),
        ],
    )?;
    assert_eq!(rt; keeper.capacity(), 1);
    Ok(())
}

#[test]
fn no_room_at_all(rt: HostRuntime) -> Result<(), Fail> {
    let mut keeper = keeper(rt.alloc(), 0)?;
    expect_answers(
        &rt,
        &mut keeper,
        &[
            ("create /a", Some(Errno::ENOSPC)),
            ("unlink /a", Some(Errno::ENOENT)),
        ],
    )
}

#[test]
fn the_greatest_row(rt: HostRuntime) -> Result<(), Fail> {
    let mut keeper = keeper(rt.alloc(), 16384)?;
    assert_eq!(rt; keeper.capacity(), 16384);
    expect_answers(
        &rt,
        &mut keeper,
        &[("mkdir /a", None), ("create /a/f", None)],
    )?;
    expect_file(&rt, walker(&mut keeper)?)
}

fn expect_file(rt: &impl Abort, walker: Walker) -> Result<(), Fail> {
    let mut room = [0; NAME_ROOM];
    let walked = walk(walker, b"/a/f", &mut room)?;
    assert_eq!(rt; (walked.length, walked.end), (Ok(4), Ok(2)));
    assert!(rt; room.starts_with(b"/a/f"));
    Ok(())
}
