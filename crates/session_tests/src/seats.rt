//! As many sessions as there are places for readers of the policy.
ghost use Rattle.std.specs.Prelude.{◌≡◌};
ghost use mathlib.Core.List.{IsPrefix};

use crate::fixtures::{FILE, TREE, allowed, expect_beside, expect_with, open_each, publish_first};
use dentry_cache::Keeper;
use mediation::Answer;
use names::Errno;
use path_session::{LinkAnswer, Session, Unanswered};
use profile_registry::{NoEntry, NoSeat, PLACES, Publisher};
use rule_text::Verdict;
use std::alloc::Global;
use std::process::Abort;
use std::sync::Wait;
use std::test::Fail;
use storm_parts::{first_keeper, new_publisher, session, sessions_of};
use test_parts::perms;

// All of them open, including the last one. When one ends, its place becomes free.
fn fill<R: Abort + Wait>(rt: &R, alloc: Global, publisher: &mut Publisher) -> Result<(), Fail> {
    let mut keeper = first_keeper(alloc)?;
    publish_first(rt, alloc, publisher)?;
    let mut sessions = sessions_of(alloc, &mut keeper, publisher, PLACES)?;
    assert_eq!(rt; publisher.reader().err(), Some(NoSeat));
    open_each(rt, &mut sessions)?;
    drop(sessions.pop());
    let mut last = session(alloc, &mut keeper, publisher, b"p")?;
    assert_eq!(rt; publisher.reader().err(), Some(NoSeat));
    expect_beside(rt, &mut last, &[allowed()])
}

#[test]
fn a_session_has_a_place(rt: HostRuntime) -> Result<(), Fail> {
    let mut publisher = new_publisher(rt.alloc())?;
    let outcome = fill(&rt, rt.alloc(), &mut publisher);
    publisher.close(&rt);
    outcome
}

// By everything that the publisher has published, neither an open nor a link is answered, and no name is judged.
fn expect_no_entry(
    rt: &impl Abort,
    session: &mut Session,
    keeper: &mut Keeper,
    publisher: &mut Publisher,
) -> Result<(), Fail>
    requires row { session.old.walk.table ≡ keeper.old.table }
    requires policy { IsPrefix session.old.reading.learned publisher.old.published }
    ensures same { (keeper.new.table ≡ keeper.old.table) × (publisher.new ≡ publisher.old) }
    ensures of { session.new.walk.table ≡ session.old.walk.table }
    ensures learned { IsPrefix session.new.reading.learned publisher.old.published }
{
    let answer = session.open_with_both(keeper, publisher, b"/d/f", perms(b"r")?);
    assert_eq!(rt; answer, Err(NoEntry));
    assert!(rt; session.name().is_empty());
    let linked = session.link_with_both(keeper, publisher, b"/d/f", b"/m");
    assert_eq!(rt; linked, Err(Unanswered::NoEntry));
    assert!(rt; session.name().is_empty());
    assert_eq!(rt; keeper.version(), TREE);
    Ok(())
}

// Both are answered.
fn expect_entry(
    rt: &impl Abort,
    session: &mut Session,
    keeper: &mut Keeper,
    publisher: &mut Publisher,
) -> Result<(), Fail>
    requires row { session.old.walk.table ≡ keeper.old.table }
    requires policy { IsPrefix session.old.reading.learned publisher.old.published }
{
    let answer = session.open_with_both(keeper, publisher, b"/d/f", perms(b"r")?);
    let allowed = Answer::Judged {
        verdict: Verdict::Allowed,
        node: FILE,
        tree_version: TREE,
        policy_version: 1,
    };
    assert_eq!(rt; answer, Ok(allowed));
    assert!(rt; session.name() == b"/d/f".as_slice());
    let linked = session.link_with_both(keeper, publisher, b"/x", b"/m");
    let absent = LinkAnswer::Failed {
        errno: Errno::ENOENT,
        tree_version: TREE,
    };
    assert_eq!(rt; linked, Ok(absent));
    Ok(())
}

fn expect_no_place(
    rt: &impl Abort,
    session: &mut Session,
    keeper: &mut Keeper,
    publisher: &mut Publisher,
) -> Result<(), Fail>
    requires row { session.old.walk.table ≡ keeper.old.table }
    requires policy { IsPrefix session.old.reading.learned publisher.old.published }
    ensures same { (keeper.new.table ≡ keeper.old.table) × (publisher.new ≡ publisher.old) }
    ensures of { session.new.walk.table ≡ session.old.walk.table }
    ensures learned { IsPrefix session.new.reading.learned publisher.old.published }
{
    expect_no_entry(rt, session, keeper, publisher)?;
    expect_with(rt, session, keeper, &[allowed()])?;
    expect_no_entry(rt, session, keeper, publisher)
}

// Asking the publisher takes a place. If none is free, there is no entry with the publisher, but there is one without it.
fn ask_without_a_place<R: Abort + Wait>(
    rt: &R,
    alloc: Global,
    publisher: &mut Publisher,
) -> Result<(), Fail> {
    let mut keeper = first_keeper(alloc)?;
    publish_first(rt, alloc, publisher)?;
    let mut others = sessions_of(alloc, &mut keeper, publisher, PLACES - 1)?;
    let mut session = session(alloc, &mut keeper, publisher, b"p")?;
    expect_no_place(rt, &mut session, &mut keeper, publisher)?;
    drop(others.pop());
    expect_entry(rt, &mut session, &mut keeper, publisher)
}

#[test]
fn no_entry_where_no_place_is_free(rt: HostRuntime) -> Result<(), Fail> {
    let mut publisher = new_publisher(rt.alloc())?;
    let outcome = ask_without_a_place(&rt, rt.alloc(), &mut publisher);
    publisher.close(&rt);
    outcome
}
