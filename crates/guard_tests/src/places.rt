//! Places of sessions, and the end of a guard.
ghost use Rattle.std.specs.Prelude.{◌≡◌};

use crate::fixtures::{allowed, create, keeper, publish, session, to_read};
use dentry_cache::Keeper;
use path_guard::{Answer, Guard, Row, Session, SessionFault};
use profile_registry::{PLACES, Publisher};
use std::alloc::Global;
use std::marker::Brand;
use std::process::Abort;
use std::sync::Wait;
use std::test::Fail;

// A session that outlives its guard.
fn ended_guard<M: Row, R: Abort + Wait>(
    rt: &R,
    alloc: Global,
    keeper: Keeper,
    publisher: Publisher,
) -> Result<(), Fail>
    requires { keeper.table ≡ M.table }
{
    let guard: Guard<M> = Guard::new(alloc, keeper, publisher);
    let given = set_up(rt, alloc, &guard);
    guard.close(rt);
    let mut session = given?;
    assert_eq!(rt; session.try_open(b"/f", to_read()), Answer::NoEntry);
    assert!(rt; session.name().is_empty(), "no name was judged");
    Ok(())
}

fn set_up<M: Row, R: Abort + Wait>(
    rt: &R,
    alloc: Global,
    guard: &Guard<M>,
) -> Result<Session, Fail> {
    create(rt, guard, b"/f")?;
    publish(rt, alloc, guard, b"profile p {\n  /f r,\n}\n")?;
    let mut session = session(rt, guard)?;
    assert_eq!(rt; session.try_open(b"/f", to_read()), allowed(2, 1, 1));
    Ok(session)
}

#[test]
fn sessions_outlive_their_guard(rt: HostRuntime) -> Result<(), Fail> {
    let keeper = keeper(rt.alloc())?;
    let publisher = Publisher::new(rt.alloc())?;
    ended_guard::<Brand, _>(&rt, rt.alloc(), keeper, publisher)
}

fn all_places_of<M: Row, R: Abort + Wait>(
    rt: &R,
    alloc: Global,
    guard: &Guard<M>,
) -> Result<(), Fail> {
    let mut sessions = Vec::new(alloc);
    for _ in 0..PLACES {
        sessions.push(session(rt, guard)?)?;
    }
    let fault = guard.session(rt, b"p").err();
    assert_eq!(rt; fault, Some(SessionFault::NoSeat));
    drop(sessions.pop());
    assert!(rt;
        guard.session(rt, b"p").is_ok(),
        "a place that was given back"
    );
    Ok(())
}

fn all_places_by<M: Row, R: Abort + Wait>(
    rt: &R,
    alloc: Global,
    keeper: Keeper,
    publisher: Publisher,
) -> Result<(), Fail>
    requires { keeper.table ≡ M.table }
{
    let guard: Guard<M> = Guard::new(alloc, keeper, publisher);
    let outcome = all_places_of(rt, alloc, &guard);
    guard.close(rt);
    outcome
}

#[test]
fn sessions_up_to_the_last_place(rt: HostRuntime) -> Result<(), Fail> {
    let keeper = keeper(rt.alloc())?;
    let publisher = Publisher::new(rt.alloc())?;
    all_places_by::<Brand, _>(&rt, rt.alloc(), keeper, publisher)
}
