//! Opens concurrently with a keeper that is at rest, and with the keeper held exclusively.
ghost use Rattle.std.specs.Prelude.{◌≡◌};

use crate::fixtures::{
    FILE, Row, TREE, allowed, expect_beside, expect_with, first_session, judged, open_each, opened,
    publish, publish_first, unjudged,
};
use dentry_cache::Keeper;
use directory_tree::Change;
use names::{Errno, Perms};
use path_session::{Answer, Session};
use profile_registry::Publisher;
use rule_text::Verdict;
use std::alloc::Global;
use std::process::Abort;
use std::sync::Wait;
use std::test::Fail;
use storm_parts::{apply, compiled, failed, first_keeper, new_publisher, select, sessions_of};
use test_parts::{path, perms};

/// The number of sessions that share a keeper and a publisher.
const SESSIONS: usize = 16;

/// The number of times that each of them opens a file.
const OPENS: usize = 1000;

fn open_quietly<R: Abort + Wait>(
    rt: &R,
    alloc: Global,
    publisher: &mut Publisher,
) -> Result<(), Fail> {
    let mut keeper = first_keeper(alloc)?;
    publish_first(rt, alloc, publisher)?;
    let mut sessions = sessions_of(alloc, &mut keeper, publisher, SESSIONS)?;
    for _ in 0..OPENS {
        open_each(rt, &mut sessions)?;
    }
    Ok(())
}

// With nothing else running, no open is busy.
#[test]
fn quiet_open(rt: HostRuntime) -> Result<(), Fail> {
    let mut publisher = new_publisher(rt.alloc())?;
    let outcome = open_quietly(&rt, rt.alloc(), &mut publisher);
    publisher.close(&rt);
    outcome
}

fn expect_moved(rt: &impl Abort, session: &mut Session, keeper: &mut Keeper) -> Result<(), Fail>
    requires { session.old.walk.table ≡ keeper.old.table }
{
    let moved = opened(b"/e/f", b"r", judged(Verdict::Allowed, FILE, 6), b"/e/f");
    let gone = unjudged(b"/d/f", failed(Errno::ENOENT, 6));
    expect_with(rt, session, keeper, &[moved])?;
    expect_beside(rt, session, &[moved, gone])
}

// `/d/f` is `/e/f` from the next version on. The session meets its keeper, and opens concurrently with it.
fn open_around_a_rename(
    rt: &impl Abort,
    session: &mut Session,
    keeper: &mut Keeper,
) -> Result<(), Fail>
    requires { session.old.walk.table ≡ keeper.old.table }
{
    let rename = Change::Rename(path(b"/d")?, path(b"/e")?);
    expect_beside(rt, session, &[allowed()])?;
    assert_eq!(rt; apply(keeper, &rename), Ok(6));
    expect_moved(rt, session, keeper)
}

fn meet_and_open<R: Abort + Wait>(
    rt: &R,
    alloc: Global,
    publisher: &mut Publisher,
) -> Result<(), Fail> {
    let (mut keeper, mut session) = first_session(rt, alloc, publisher, b"p")?;
    open_around_a_rename(rt, &mut session, &mut keeper)
}

#[test]
fn met_open(rt: HostRuntime) -> Result<(), Fail> {
    let mut publisher = new_publisher(rt.alloc())?;
    let outcome = meet_and_open(&rt, rt.alloc(), &mut publisher);
    publisher.close(&rt);
    outcome
}

// Opens by the profile `p`, with each verdict.
fn verdicts<'a>(read: Perms, write: Perms) -> [Row<'a>; 5] {
    [
        opened(b"/d/f", b"r", judged(Verdict::Allowed, FILE, TREE), b"/d/f"),
        opened(
            b"/d/f",
            b"rw",
            judged(Verdict::NoRule { missing: write }, FILE, TREE),
            b"/d/f",
        ),
        opened(
            b"/l/k",
            b"rw",
            judged(Verdict::Denied { rule: 2 }, 4, TREE),
            b"/d/k",
        ),
        opened(
            b"/",
            b"r",
            judged(Verdict::NoRule { missing: read }, 1, TREE),
            b"/",
        ),
        opened(
            b"/d/../d/./f",
            b"r",
            judged(Verdict::Allowed, FILE, TREE),
            b"/d/f",
        ),
    ]
}

// Opens that reach no file that can be judged.
fn failures<'a>(long: &'a [u8]) -> [Row<'a>; 7] {
    [
        unjudged(b"/d/x", failed(Errno::ENOENT, TREE)),
        unjudged(b"", failed(Errno::ENOENT, TREE)),
        unjudged(b"/d/f/", failed(Errno::ENOTDIR, TREE)),
        unjudged(b"/r", failed(Errno::ELOOP, TREE)),
        unjudged(b"d/f", failed(Errno::EINVAL, TREE)),
        unjudged(long, failed(Errno::ENAMETOOLONG, TREE)),
        Row {
            ask: b"rl",
            ..unjudged(b"/d/f", failed(Errno::EINVAL, TREE))
        },
    ]
}

/// Opens concurrently with the keeper, and with it held exclusively.
pub(crate) fn expect_both(
    rt: &impl Abort,
    session: &mut Session,
    keeper: &mut Keeper,
    rows: &[Row<'_>],
) -> Result<(), Fail>
    requires { session.old.walk.table ≡ keeper.old.table }
    ensures same { keeper.new ≡ keeper.old }
    ensures of { session.new.walk.table ≡ session.old.walk.table }
{
    expect_beside(rt, session, rows)?;
    expect_with(rt, session, keeper, rows)
}

fn open_all(rt: &impl Abort, session: &mut Session, keeper: &mut Keeper) -> Result<(), Fail>
    requires { session.old.walk.table ≡ keeper.old.table }
{
    let verdicts = verdicts(perms(b"r")?, perms(b"w")?);
    expect_both(rt, session, keeper, &verdicts)?;
    expect_both(rt, session, keeper, &failures(&[b'/'; 4096]))?;
    select(session, b"q")?;
    let missing = Answer::NoProfile { policy_version: 1 };
    expect_both(rt, session, keeper, &[unjudged(b"/d/f", missing)])
}

fn open_all_kinds<R: Abort + Wait>(
    rt: &R,
    alloc: Global,
    publisher: &mut Publisher,
) -> Result<(), Fail> {
    let (mut keeper, mut session) = first_session(rt, alloc, publisher, b"p")?;
    open_all(rt, &mut session, &mut keeper)
}

#[test]
fn opens_of_all_kinds(rt: HostRuntime) -> Result<(), Fail> {
    let mut publisher = new_publisher(rt.alloc())?;
    let outcome = open_all_kinds(&rt, rt.alloc(), &mut publisher);
    publisher.close(&rt);
    outcome
}

fn open_by_another_profile(rt: &impl Abort, session: &mut Session) -> Result<(), Fail> {
    select(session, b"q")?;
    // The name is that of the last answer, until the next one.
    assert!(rt; session.name() == b"/d/f".as_slice());
    let answer = Answer::Judged {
        verdict: Verdict::Denied { rule: 1 },
        node: FILE,
        tree_version: TREE,
        policy_version: 2,
    };
    expect_beside(rt, session, &[opened(b"/d/f", b"r", answer, b"/d/f")])
}

fn open_by_no_profile(rt: &impl Abort, session: &mut Session) -> Result<(), Fail> {
    select(session, b"")?;
    let missing = Answer::NoProfile { policy_version: 2 };
    expect_beside(rt, session, &[unjudged(b"/d/f", missing)])
}

fn publish_denying<R: Abort + Wait>(
    rt: &R,
    alloc: Global,
    publisher: &mut Publisher,
) -> Result<(), Fail> {
    let denying = compiled(alloc, b"profile q {\n  deny /d/f r,\n}\n")?;
    assert_eq!(rt; publish(rt, publisher, b"q", &denying)?, 2);
    Ok(())
}

fn select_in_turn<R: Abort + Wait>(
    rt: &R,
    alloc: Global,
    publisher: &mut Publisher,
) -> Result<(), Fail> {
    let (_keeper, mut session) = first_session(rt, alloc, publisher, b"p")?;
    expect_beside(rt, &mut session, &[allowed()])?;
    publish_denying(rt, alloc, publisher)?;
    open_by_another_profile(rt, &mut session)?;
    open_by_no_profile(rt, &mut session)
}

#[test]
fn a_profile_is_selected(rt: HostRuntime) -> Result<(), Fail> {
    let mut publisher = new_publisher(rt.alloc())?;
    let outcome = select_in_turn(&rt, rt.alloc(), &mut publisher);
    publisher.close(&rt);
    outcome
}
