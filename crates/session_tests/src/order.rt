//! Which answer takes precedence when there are several reasons not to judge.
ghost use Rattle.std.specs.Prelude.{◌≡◌};

use crate::fixtures::{expect_beside, expect_with, first_session, unjudged};
use dentry_cache::Keeper;
use directory_tree::Change;
use path_session::{Answer, Session, Unanswered};
use profile_registry::Publisher;
use std::alloc::Global;
use std::process::Abort;
use std::sync::Wait;
use std::test::Fail;
use storm_parts::{first_keeper, new_publisher, select, session};
use test_parts::{path, perms};

// What is opened: a file that would be judged, a file that doesn't exist, a loop of links, and a text that is no path.
const PATHS: [&[u8]; 4] = [b"/d/f", b"/x", b"/r", b"d"];

// Each open has this answer, whatever its path, even if it asks for too much.
fn expect_always(rt: &impl Abort, session: &mut Session, answer: Answer) -> Result<(), Fail>
    ensures { session.new.walk.table ≡ session.old.walk.table }
{
    for path in PATHS {
        expect_beside(rt, session, &[unjudged(path, answer)])?;
    }
    assert_eq!(rt; session.try_open(b"/d/f", perms(b"rl")?), answer);
    assert!(rt; session.name().is_empty());
    Ok(())
}

// The keeper sets one cell of a rename, and is gone in the middle of it.
fn stop(keeper: Keeper, made: &Change<'_>) -> Result<(), Fail> {
    match keeper.stop_amid(made, 1) {
        Ok(_) => Ok(()),
        Err((keeper, _)) => match keeper.stop_amid(made, 1) {
            Ok(_) => Ok(()),
            Err(_) => Err(Fail::from("a change that is refused")),
        },
    }
}

// A session whose keeper has stopped. The count stays odd forever: twice the version, plus one.
fn left_alone<R: Abort + Wait>(
    rt: &R,
    alloc: Global,
    publisher: &mut Publisher,
) -> Result<Session, Fail> {
    let rename = Change::Rename(path(b"/d")?, path(b"/e")?);
    let (keeper, session) = first_session(rt, alloc, publisher, b"p")?;
    stop(keeper, &rename)?;
    Ok(session)
}

// Busy takes precedence over any failure, and no profile over busy.
fn open_alone<R: Abort + Wait>(
    rt: &R,
    alloc: Global,
    publisher: &mut Publisher,
) -> Result<Session, Fail> {
    let mut session = left_alone(rt, alloc, publisher)?;
    let busy = Answer::Busy {
        began: 11,
        ended: 11,
    };
    expect_always(rt, &mut session, busy)?;
    select(&mut session, b"q")?;
    expect_always(rt, &mut session, Answer::NoProfile { policy_version: 1 })?;
    Ok(session)
}

// Once the publisher is closed, no entry takes precedence over all others.
#[test]
fn answers_beside_a_stopped_keeper(rt: HostRuntime) -> Result<(), Fail> {
    let mut publisher = new_publisher(rt.alloc())?;
    let outcome = open_alone(&rt, rt.alloc(), &mut publisher);
    publisher.close(&rt);
    let mut session = outcome?;
    expect_always(&rt, &mut session, Answer::NoEntry)?;
    select(&mut session, b"p")?;
    expect_always(&rt, &mut session, Answer::NoEntry)
}

fn expect_no_link(rt: &impl Abort, session: &mut Session, keeper: &mut Keeper)
    requires { session.old.walk.table ≡ keeper.old.table }
{
    let linked = session.link_with(keeper, b"/d/f", b"/m");
    assert_eq!(rt; linked, Err(Unanswered::NoEntry));
    let linked = session.link_with(keeper, b"", b"");
    assert_eq!(rt; linked, Err(Unanswered::NoEntry));
}

fn expect_no_entry(rt: &impl Abort, session: &mut Session, keeper: &mut Keeper) -> Result<(), Fail>
    requires { session.old.walk.table ≡ keeper.old.table }
{
    expect_always(rt, session, Answer::NoEntry)?;
    let rows = [
        unjudged(b"/d/f", Answer::NoEntry),
        unjudged(b"", Answer::NoEntry),
    ];
    expect_with(rt, session, keeper, &rows)?;
    expect_no_link(rt, session, keeper);
    Ok(())
}

#[test]
fn no_entry_where_the_publisher_is_closed(rt: HostRuntime) -> Result<(), Fail> {
    let mut keeper = first_keeper(rt.alloc())?;
    let mut publisher = new_publisher(rt.alloc())?;
    let made = session(rt.alloc(), &mut keeper, &mut publisher, b"p");
    publisher.close(&rt);
    expect_no_entry(&rt, &mut made?, &mut keeper)
}
