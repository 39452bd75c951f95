//! What the keeper itself sees, and whose changes a walker sees.
use crate::fixtures::{Walked, apply, keeper, keeper_after, name, walk, walk_on, walker};
use crate::lines::change;
use dentry_cache::{Attempt, Busy, Keeper, Walker};
use names::Errno;
use path_lookup::{NAME_ROOM, WalkFault};
use std::process::Abort;
use std::test::Fail;

const ABSENT: WalkFault = WalkFault::Refused(Errno::ENOENT);

/// Expects the keeper's look to find this name by a path, or this fault.
fn expect_seen(
    rt: &impl Abort,
    keeper: &mut Keeper,
    path: &str,
    want: Result<&str, WalkFault>,
) -> Result<(), Fail> {
    let mut room = [0; NAME_ROOM];
    let length = name(keeper.look(), path.as_bytes(), &mut room)?;
    match want {
        Ok(name) => {
            assert_eq!(rt; length, Ok(name.len()), "{path}");
            assert!(rt; room.starts_with(name.as_bytes()), "{path}");
        }
        Err(fault) => assert_eq!(rt; length, Err(fault), "{path}"),
    }
    Ok(())
}

fn expect_all_seen(
    rt: &impl Abort,
    keeper: &mut Keeper,
    rows: &[(&str, Result<&str, WalkFault>)],
) -> Result<(), Fail> {
    for (path, want) in rows {
        expect_seen(rt, keeper, path, *want)?;
    }
    Ok(())
}

const LINES: [&str; 4] = [
    "mkdir /a",
    "create /a/f",
    "symlink ../a/f /a/l",
    "symlink r /r",
];

#[test]
fn a_keeper_looks(rt: HostRuntime) -> Result<(), Fail> {
    let rename = change("rename /a /b")?;
    let mut keeper = keeper_after(rt.alloc(), 5, &LINES)?;
    let looped = Err(WalkFault::Refused(Errno::ELOOP));
    let first = [
        ("/a/l", Ok("/a/f")),
        ("/a/.", Ok("/a/")),
        ("/b", Err(ABSENT)),
        ("/r", looped),
    ];
    expect_all_seen(&rt, &mut keeper, &first)?;
    assert_eq!(rt; keeper.version(), 4);
    // Changes continue after a look, and the next look sees them.
    assert_eq!(rt; apply(&mut keeper, &rename), Ok(5));
    let then = [("/b/f", Ok("/b/f")), ("/a", Err(ABSENT))];
    expect_all_seen(&rt, &mut keeper, &then)
}

/// Continues a walk, and expects the length of the name that it finds, and how it ends.
fn expect_end(
    rt: &impl Abort,
    attempt: Attempt,
    path: &str,
    length: Result<usize, WalkFault>,
    end: Result<u64, Busy>,
) -> Result<Walker, Fail> {
    let Walked {
        walker,
        length: found,
        end: ended,
    } = walk_on(attempt, path.as_bytes(), &mut [0; NAME_ROOM])?;
    assert_eq!(rt; (found, ended), (length, end), "{path}");
    Ok(walker)
}

// A look is no change: a walk that continues after it ends well.
#[test]
fn a_walk_around_a_look(rt: HostRuntime) -> Result<(), Fail> {
    let mut keeper = keeper_after(rt.alloc(), 1, &["create /f"])?;
    let attempt = walker(&mut keeper)?.begin();
    expect_seen(&rt, &mut keeper, "/f", Ok("/f"))?;
    expect_end(&rt, attempt, "/f", Ok(2), Ok(1))?;
    Ok(())
}

fn make_two(rt: &impl Abort, keeper: &mut Keeper) -> Result<(), Fail> {
    assert_eq!(rt; apply(keeper, &change("create /one")?), Ok(1));
    assert_eq!(rt; apply(keeper, &change("create /two")?), Ok(2));
    Ok(())
}

fn expect_other(rt: &impl Abort, attempt: Attempt) -> Result<(), Fail> {
    let walker = expect_end(rt, attempt, "/one", Err(ABSENT), Ok(1))?;
    expect_end(rt, walker.begin(), "/other", Ok(6), Ok(1))?;
    Ok(())
}

fn expect_one(rt: &impl Abort, attempt: Attempt) -> Result<(), Fail> {
    let walker = expect_end(rt, attempt, "/other", Err(ABSENT), Ok(2))?;
    expect_end(rt, walker.begin(), "/one", Ok(4), Ok(2))?;
    Ok(())
}

fn walk_both(rt: &impl Abort, one: &mut Keeper, other: &mut Keeper) -> Result<(), Fail> {
    let attempt = walker(other)?.begin();
    let ours = walker(one)?;
    make_two(rt, one)?;
    expect_other(rt, attempt)?;
    expect_one(rt, ours.begin())
}

// Walkers of one row don't see another row, and its changes don't disturb them.
#[test]
fn rows_are_apart(rt: HostRuntime) -> Result<(), Fail> {
    let mut other = keeper_after(rt.alloc(), 3, &["create /other"])?;
    let mut one = keeper(rt.alloc(), 2)?;
    walk_both(&rt, &mut one, &mut other)?;
    assert_eq!(rt; (one.version(), other.version()), (2, 1));
    Ok(())
}

// Once the keeper is gone, its row stays as it was.
#[test]
fn a_walker_without_its_keeper(rt: HostRuntime) -> Result<(), Fail> {
    let mut keeper = keeper_after(rt.alloc(), 1, &["create /f"])?;
    let walker = walker(&mut keeper)?;
    drop(keeper);
    let walked = walk(walker, b"/f", &mut [0; NAME_ROOM])?;
    assert_eq!(rt; (walked.length, walked.end), (Ok(2), Ok(1)));
    Ok(())
}
