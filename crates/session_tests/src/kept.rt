//! Verdicts that are kept, and those that aren't.
ghost use Rattle.std.specs.Prelude.{◌≡◌, ◌≤◌, ◌+◌};
ghost use mathlib.Core.List.{IsPrefix};

use crate::fixtures::{
    FILE, Row, TREE, allowed, expect_beside, expect_with, first_session, judged, opened, publish,
    unjudged,
};
use dentry_cache::Keeper;
use directory_tree::Change;
use names::Errno;
use path_session::{Answer, Session};
use profile_registry::Publisher;
use rule_text::Verdict;
use std::alloc::Global;
use std::process::Abort;
use std::sync::Wait;
use std::test::Fail;
use storm_parts::{apply, compiled, failed, new_publisher, select};
use test_parts::{path, perms};

/// How many verdicts a session keeps.
const KEPT: usize = 64;

// Opens, and how many of the answers were kept verdicts.
fn expect_kept(
    rt: &impl Abort,
    session: &mut Session,
    rows: &[Row<'_>],
    kept: u64,
) -> Result<(), Fail>
    ensures of { session.new.walk.table ≡ session.old.walk.table }
    ensures learned { session.new.reading.learned ≡ session.old.reading.learned }
{
    let before = session.kept_answers();
    expect_beside(rt, session, rows)?;
    assert_eq!(rt; session.kept_answers().wrapping_sub(before), kept);
    Ok(())
}

// The same with the keeper held exclusively.
fn expect_kept_here(
    rt: &impl Abort,
    session: &mut Session,
    keeper: &mut Keeper,
    rows: &[Row<'_>],
    kept: u64,
) -> Result<(), Fail>
    requires { session.old.walk.table ≡ keeper.old.table }
    ensures same { keeper.new ≡ keeper.old }
    ensures of { session.new.walk.table ≡ session.old.walk.table }
    ensures learned { session.new.reading.learned ≡ session.old.reading.learned }
{
    let before = session.kept_answers();
    expect_with(rt, session, keeper, rows)?;
    assert_eq!(rt; session.kept_answers().wrapping_sub(before), kept);
    Ok(())
}

// The first open of a file is walked, and every one after it is answered by what was kept, with its node, its verdict and its name.
fn keep_and_find(rt: &impl Abort, session: &mut Session, keeper: &mut Keeper) -> Result<(), Fail>
    requires { session.old.walk.table ≡ keeper.old.table }
    ensures same { keeper.new ≡ keeper.old }
    ensures of { session.new.walk.table ≡ session.old.walk.table }
    ensures learned { session.new.reading.learned ≡ session.old.reading.learned }
{
    let denied = opened(
        b"/d/k",
        b"w",
        judged(Verdict::Denied { rule: 2 }, FILE + 1, TREE),
        b"/d/k",
    );
    expect_kept(rt, session, &[allowed(), denied], 0)?;
    expect_kept(rt, session, &[allowed(), denied, allowed()], 3)?;
    expect_kept_here(rt, session, keeper, &[denied, allowed()], 2)
}

// Another path, other permissions and another profile are other questions.
fn ask_otherwise(rt: &impl Abort, session: &mut Session) -> Result<(), Fail>
    ensures of { session.new.walk.table ≡ session.old.walk.table }
    ensures learned { session.new.reading.learned ≡ session.old.reading.learned }
{
    let by_name = opened(b"/d/f", b"r", judged(Verdict::Allowed, FILE, TREE), b"/d/f");
    let missing = Verdict::NoRule {
        missing: perms(b"k")?,
    };
    let to_lock = opened(b"/l/f", b"rk", judged(missing, FILE, TREE), b"/d/f");
    expect_kept(rt, session, &[by_name, to_lock], 0)?;
    select(session, b"q")?;
    let no_profile = unjudged(b"/l/f", Answer::NoProfile { policy_version: 1 });
    expect_kept(rt, session, &[no_profile, no_profile], 0)?;
    select(session, b"p")?;
    expect_kept(rt, session, &[by_name, to_lock, allowed()], 3)
}

// Nothing is kept of what fails.
fn fail_again(rt: &impl Abort, session: &mut Session) -> Result<(), Fail>
    ensures of { session.new.walk.table ≡ session.old.walk.table }
    ensures learned { session.new.reading.learned ≡ session.old.reading.learned }
{
    let missing = unjudged(b"/d/x", failed(Errno::ENOENT, TREE));
    expect_kept(rt, session, &[missing, missing], 0)
}

// After a change of the tree the file is found anew, under its new name.
fn open_in_a_new_tree(
    rt: &impl Abort,
    session: &mut Session,
    keeper: &mut Keeper,
) -> Result<(), Fail>
    requires { session.old.walk.table ≡ keeper.old.table }
    ensures same { keeper.new.table ≡ keeper.old.table }
    ensures of { session.new.walk.table ≡ session.old.walk.table }
    ensures learned { session.new.reading.learned ≡ session.old.reading.learned }
{
    let change = Change::Rename(path(b"/d")?, path(b"/e")?);
    apply(keeper, &change).ok().ok_or("a rename")?;
    let gone = unjudged(b"/d/f", failed(Errno::ENOENT, TREE + 1));
    let there = opened(
        b"/e/f",
        b"r",
        judged(Verdict::Allowed, FILE, TREE + 1),
        b"/e/f",
    );
    expect_kept(rt, session, &[gone, there], 0)?;
    expect_kept(rt, session, &[there], 1)
}

// After a change of the policy it is judged anew.
fn open_by_a_new_policy<R: Abort + Wait>(
    rt: &R,
    alloc: Global,
    publisher: &mut Publisher,
    session: &mut Session,
) -> Result<(), Fail> {
    let none = compiled(alloc, b"profile p {\n}\n")?;
    assert_eq!(rt; publish(rt, publisher, b"p", &none)?, 2);
    let answer = Answer::Judged {
        verdict: Verdict::NoRule {
            missing: perms(b"r")?,
        },
        node: FILE,
        tree_version: TREE + 1,
        policy_version: 2,
    };
    let refused = opened(b"/e/f", b"r", answer, b"/e/f");
    expect_kept(rt, session, &[refused], 0)?;
    expect_kept(rt, session, &[refused], 1)
}

fn keep_in_turn<R: Abort + Wait>(
    rt: &R,
    alloc: Global,
    publisher: &mut Publisher,
) -> Result<(), Fail> {
    let (mut keeper, mut session) = first_session(rt, alloc, publisher, b"p")?;
    keep_and_find(rt, &mut session, &mut keeper)?;
    ask_otherwise(rt, &mut session)?;
    fail_again(rt, &mut session)?;
    open_in_a_new_tree(rt, &mut session, &mut keeper)?;
    open_by_a_new_policy(rt, alloc, publisher, &mut session)
}

#[test]
fn kept_again(rt: HostRuntime) -> Result<(), Fail> {
    let mut publisher = new_publisher(rt.alloc())?;
    let outcome = keep_in_turn(&rt, rt.alloc(), &mut publisher);
    publisher.close(&rt);
    outcome
}

// Opens the file by paths with this many slashes and fewer, the shortest first, and returns how many were kept.
fn open_by_slashes(session: &mut Session, most: usize) -> Result<u64, Fail>
    requires { most ≤ KEPT + 1 }
{
    let slashes = [b'/'; KEPT + 1];
    let read = perms(b"r")?;
    let before = session.kept_answers();
    for count in 1..most + 1 {
        let mut text = [0; KEPT + 4];
        text[..count].copy_from_slice(&slashes[..count]);
        text[count..count + 3].copy_from_slice(b"d/f");
        session.try_open(&text[..count + 3], read);
    }
    Ok(session.kept_answers().wrapping_sub(before))
}

// As many questions as are kept are found again; of one more, in turn, none at first, and then some.
fn fill<R: Abort + Wait>(rt: &R, alloc: Global, publisher: &mut Publisher) -> Result<(), Fail> {
    let (_keeper, mut session) = first_session(rt, alloc, publisher, b"p")?;
    assert_eq!(rt; open_by_slashes(&mut session, KEPT)?, 0);
    assert_eq!(rt; open_by_slashes(&mut session, KEPT)?, KEPT as u64);
    assert_eq!(rt; open_by_slashes(&mut session, KEPT + 1)?, KEPT as u64);
    assert_eq!(rt; open_by_slashes(&mut session, KEPT + 1)?, 0);
    assert_eq!(rt; open_by_slashes(&mut session, KEPT + 1)?, 50);
    Ok(())
}

#[test]
fn the_last_ones_are_kept(rt: HostRuntime) -> Result<(), Fail> {
    let mut publisher = new_publisher(rt.alloc())?;
    let outcome = fill(&rt, rt.alloc(), &mut publisher);
    publisher.close(&rt);
    outcome
}

// With the publisher held exclusively, too, what was kept is found, also what was kept without it; if another policy was read
// without it, nothing is kept any longer.
fn expect_with_both<R: Abort + Wait>(
    rt: &R,
    alloc: Global,
    publisher: &mut Publisher,
    session: &mut Session,
    keeper: &mut Keeper,
) -> Result<(), Fail>
    requires row { session.old.walk.table ≡ keeper.old.table }
    requires policy { IsPrefix session.old.reading.learned publisher.old.published }
{
    let read = perms(b"r")?;
    assert!(rt;
        session
            .open_with_both(keeper, publisher, b"/d/f", read)
            .is_ok()
    );
    assert!(rt;
        session
            .open_with_both(keeper, publisher, b"/d/f", read)
            .is_ok()
    );
    assert_eq!(rt; session.kept_answers(), 1);
    expect_kept(rt, session, &[allowed()], 0)?;
    assert!(rt;
        session
            .open_with_both(keeper, publisher, b"/l/f", read)
            .is_ok()
    );
    assert_eq!(rt; session.kept_answers(), 2);
    let other = compiled(alloc, b"profile q {\n}\n")?;
    assert_eq!(rt; publish(rt, publisher, b"q", &other)?, 2);
    session.try_open(b"/d/f", read);
    assert!(rt;
        session
            .open_with_both(keeper, publisher, b"/d/f", read)
            .is_ok()
    );
    assert_eq!(rt; session.kept_answers(), 2);
    assert!(rt;
        session
            .open_with_both(keeper, publisher, b"/d/f", read)
            .is_ok()
    );
    assert_eq!(rt; session.kept_answers(), 3);
    Ok(())
}

fn keep_with_both<R: Abort + Wait>(
    rt: &R,
    alloc: Global,
    publisher: &mut Publisher,
) -> Result<(), Fail> {
    let (mut keeper, mut session) = first_session(rt, alloc, publisher, b"p")?;
    expect_with_both(rt, alloc, publisher, &mut session, &mut keeper)
}

#[test]
fn verdicts_are_kept_with_the_publisher_at_hand(rt: HostRuntime) -> Result<(), Fail> {
    let mut publisher = new_publisher(rt.alloc())?;
    let outcome = keep_with_both(&rt, rt.alloc(), &mut publisher);
    publisher.close(&rt);
    outcome
}
