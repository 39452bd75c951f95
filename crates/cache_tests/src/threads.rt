//! Keepers, walkers and attempts that go to other threads.
ghost use Rattle.std.specs.Prelude.{◌≡◌};

use crate::fixtures::{apply, keeper, walker};
use crate::lines::change;
use crate::walks::look;
use dentry_cache::{Attempt, Busy, Keeper, Walker};
use directory_tree::Change;
use names::Errno;
use std::process::Abort;
use std::test::Fail;
use std::thread::{Threads, join};

// Makes a change in another thread, and returns the keeper.
fn apply_there<R: Threads>(
    rt: &R,
    keeper: Keeper,
    made: &Change<'static>,
) -> (Keeper, Result<u64, Errno>) {
    let there = move || {
        let mut keeper = keeper;
        let answer = apply(&mut keeper, made);
        (keeper, answer)
    };
    join(rt, there, || ()).0
}

// Begins a walk in another thread.
fn begin_there<R: Threads>(rt: &R, walker: Walker) -> Attempt {
    join(rt, move || walker.begin(), || ()).0
}

// Ends a walk in another thread.
fn end_there<R: Threads>(rt: &R, attempt: Attempt) -> (Walker, Result<u64, Busy>) {
    join(rt, move || attempt.end(), || ()).0
}

#[test]
fn all_go_to_other_threads(rt: HostRuntime) -> Result<(), Fail> {
    let mut keeper = keeper(rt.alloc(), 2)?;
    let walker = walker(&mut keeper)?;
    let (keeper, answer) = apply_there(&rt, keeper, &change("mkdir /a")?);
    assert_eq!(rt; answer, Ok(1));
    let attempt = begin_there(&rt, walker);
    let (walker, end) = end_there(&rt, attempt);
    assert_eq!(rt; end, Ok(1));
    let attempt = begin_there(&rt, walker);
    let (keeper, answer) = apply_there(&rt, keeper, &change("mkdir /a/b")?);
    assert_eq!(rt; answer, Ok(2));
    let (_, end) = end_there(&rt, attempt);
    assert_eq!(rt; end, Err(Busy { began: 2, ended: 4 }));
    assert_eq!(rt; keeper.version(), 2);
    Ok(())
}

// The last version. The directory exists at each odd version, and not at each even one.
const LAST: u64 = 1000;

// A walker gives up after this many walks, which take some seconds; the changes take some milliseconds.
const WALKS: u64 = 1 << 22;

// Makes and removes a directory repeatedly. Returns whether each version was the expected one.
fn change_often(keeper: Keeper, make: &Change<'static>, remove: &Change<'static>) -> (Keeper, bool)
    ensures { result.0.table ≡ keeper.table }
{
    let mut keeper = keeper;
    for version in 1..=LAST {
        let due = if version % 2 == 1 { make } else { remove };
        if apply(&mut keeper, due) != Ok(version) {
            return (keeper, false);
        }
    }
    (keeper, true)
}

// Walks until the last version is seen. Returns whether each walk that ended well saw what exists at its version, and no
// version decreased.
fn walk_often(walker: Walker) -> (Walker, bool)
    ensures { result.0.table ≡ walker.table }
{
    let mut walker = walker;
    let mut before = 0;
    for _ in 0..WALKS {
        let (back, found, end) = look(walker, b"a");
        walker = back;
        let Ok(version) = end else {
            continue;
        };
        if found != Some(version % 2 == 1) || version < before {
            return (walker, false);
        }
        if version == LAST {
            return (walker, true);
        }
        before = version;
    }
    (walker, false)
}

// Makes changes concurrently with walks. Once both threads have ended, the walker meets its keeper.
fn run<R: Abort + Threads>(rt: &R, mut keeper: Keeper) -> Result<(), Fail> {
    let walker = walker(&mut keeper)?;
    let (make, remove) = (change("mkdir /a")?, change("rmdir /a")?);
    let ((walker, right), (mut keeper, made)) = join(
        rt,
        move || walk_often(walker),
        || change_often(keeper, &make, &remove),
    );
    assert!(rt; made, "a version that wasn't due");
    assert!(rt;
        right,
        "a walk that saw what didn't stand, or a version that fell"
    );
    let mut walker = walker;
    keeper.meet(&mut walker);
    assert_eq!(rt; look(walker, b"a").2, Ok(LAST));
    Ok(())
}

#[test]
fn walks_beside_changes(rt: HostRuntime) -> Result<(), Fail> {
    run(&rt, keeper(rt.alloc(), 2)?)
}
