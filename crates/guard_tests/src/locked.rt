//! Opens while another thread holds the lock of the row's keeper.
ghost use Rattle.std.specs.Prelude.{◌≡◌, [], IfOk};

use crate::fixtures::{allowed, keeper, to_read};
use dentry_cache::Keeper;
use directory_tree::Change;
use guarded_row::{Answer, GuardedRow, Row, Session};
use profile_registry::Publisher;
use std::alloc::Global;
use std::marker::Brand;
use std::process::Abort;
use std::sync::atomic::{AtomicBool, Ordering};
use std::sync::{MutexGuard, Wait};
use std::test::Fail;
use std::thread::{Threads, join, yield_now};
use storm_parts::compiled;
use test_parts::path;

// A thread that waits longer fails the test, and goes on.
const MOST_TURNS: u64 = 100_000_000;

// After this many turns it yields, so that the other thread makes progress where there are few processors.
const TURNS_AT_ONCE: u64 = 4096;

/// What two threads signal to each other.
#[derive(Drop)]
struct Signals {
    // The lock is held.
    held: AtomicBool,
    // The open was answered.
    answered: AtomicBool,
}

/// Turns until the flag is set. Returns whether it was.
fn wait_for(flag: &AtomicBool) -> bool {
    for turn in 0..MOST_TURNS {
        if flag.load(Ordering::SeqCst) {
            return true;
        }
        if turn % TURNS_AT_ONCE == 0 {
            yield_now();
        }
    }
    false
}

/// Holds the keeper's lock until the open was answered. Returns whether it was.
fn hold_lock<M: Row>(rt: &impl Wait, row: &GuardedRow<M>, signals: &Signals) -> bool {
    let keeper = row.lock(rt);
    signals.held.store(true, Ordering::SeqCst);
    let answered = wait_for(&signals.answered);
    MutexGuard::unlock(keeper);
    answered
}

/// Opens once the lock is held.
fn open_while_held<M: Row>(
    rt: &impl Wait,
    row: &GuardedRow<M>,
    session: &mut Session,
    signals: &Signals,
) -> Option<Answer>
    requires { session.old.walk.table ≡ M.table }
{
    if !wait_for(&signals.held) {
        return None;
    }
    let answer = row.open(rt, session, b"/f", to_read());
    signals.answered.store(true, Ordering::SeqCst);
    Some(answer)
}

// A body that took the lock at once would be answered only after the other thread has given up.
fn open_under_lock<M: Row + Send + Sync, R: Abort + Threads + Wait + Sync>(
    rt: &R,
    row: &GuardedRow<M>,
    session: &mut Session,
) -> Result<(), Fail>
    requires { session.old.walk.table ≡ M.table }
{
    let signals = &Signals {
        held: AtomicBool::new(false),
        answered: AtomicBool::new(false),
    };
    let (answered, answer) = join(
        rt,
        move || hold_lock(rt, row, signals),
        || open_while_held(rt, row, session, signals),
    );
    assert!(rt; answered, "the open waited for the lock");
    assert_eq!(rt; answer, Some(allowed(2, 1, 1)));
    Ok(())
}

/// A session of this row, which opens by the profile that is published.
fn session_of<M: Row>(
    rt: &impl Wait,
    alloc: Global,
    row: &GuardedRow<M>,
    publisher: &mut Publisher,
) -> Result<Session, Fail>
    ensures { IfOk result (λ session. session.walk.table ≡ M.table) }
{
    let Ok(walker) = row.walker(rt) else {
        return Err(Fail::new("a walker"));
    };
    let Ok(reader) = publisher.reader() else {
        return Err(Fail::new("a reader"));
    };
    match Session::new(alloc, walker, reader, b"p") {
        Ok(session) => Ok(session),
        Err(_) => Err(Fail::new("a session")),
    }
}

/// Publishes a profile, and opens by it a file of a new row.
fn quick_under_lock_by<M: Row + Send + Sync, R: Abort + Threads + Wait + Sync>(
    rt: &R,
    alloc: Global,
    keeper: Keeper,
    publisher: &mut Publisher,
) -> Result<(), Fail>
    requires row { keeper.table ≡ M.table }
    requires policy { publisher.old ≡ record { published = []; staged = [] } }
{
    let row: GuardedRow<M> = GuardedRow::new(keeper);
    let change = Change::Create(path(b"/f")?);
    assert_eq!(rt; row.change(rt, &change), Ok(1));
    publisher.replace(b"p", compiled(alloc, b"profile p {\n  /f r,\n}\n")?)?;
    publisher.publish(rt)?;
    let mut session = session_of(rt, alloc, &row, publisher)?;
    open_under_lock(rt, &row, &mut session)
}

/// An open of a quiet tree waits for nobody, not even for a thread that holds the keeper's lock.
#[test]
fn quick_under_lock(rt: HostRuntime) -> Result<(), Fail> {
    let keeper = keeper(rt.alloc())?;
    let mut publisher = Publisher::new(rt.alloc())?;
    let outcome = quick_under_lock_by::<Brand, _>(&rt, rt.alloc(), keeper, &mut publisher);
    publisher.close(&rt);
    outcome
}
