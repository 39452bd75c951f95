//! What was changed, and published, is found.
ghost use Rattle.std.specs.Prelude.{◌≡◌};

use crate::fixtures::{allowed, create, keeper, publish, publish_as, session, to_read};
use dentry_cache::Keeper;
use directory_tree::Change;
use names::{Errno, Verdict};
use path_guard::{Answer, Guard, Row, Session};
use profile_registry::Publisher;
use std::alloc::Global;
use std::marker::Brand;
use std::process::Abort;
use std::sync::Wait;
use std::test::Fail;
use test_parts::path;

fn expect_open<M: Row>(
    rt: &(impl Abort + Wait),
    guard: &Guard<M>,
    session: &mut Session,
    answer: Answer,
)
    requires { session.old.walk.table ≡ M.table }
    ensures { session.new.walk.table ≡ M.table }
{
    assert_eq!(rt; guard.open(rt, session, b"/f", to_read()), answer);
}

// Nothing is published; then there is no file; then it may be read.
fn expect_allowed<M: Row, R: Abort + Wait>(
    rt: &R,
    alloc: Global,
    guard: &Guard<M>,
    session: &mut Session,
) -> Result<(), Fail>
    requires { session.old.walk.table ≡ M.table }
    ensures { session.new.walk.table ≡ M.table }
{
    expect_open(rt, guard, session, Answer::NoProfile { policy_version: 0 });
    assert_eq!(rt; publish(rt, alloc, guard, b"profile p {\n  /f r,\n}\n")?, 1);
    let missing = Answer::Failed {
        errno: Errno::ENOENT,
        tree_version: 0,
    };
    expect_open(rt, guard, session, missing);
    assert_eq!(rt; create(rt, guard, b"/f")?, 1);
    expect_open(rt, guard, session, allowed(2, 1, 1));
    assert_eq!(rt; session.name(), b"/f".as_slice());
    Ok(())
}

// The file is denied at this version of the policy.
fn denied(policy_version: u64) -> Answer {
    Answer::Judged {
        verdict: Verdict::Denied { rule: 1 },
        node: 2,
        tree_version: 1,
        policy_version,
    }
}

// A profile takes the place of the first. One of another name comes and goes, and changes nothing for this one; then this one goes.
fn expect_denied<M: Row, R: Abort + Wait>(
    rt: &R,
    alloc: Global,
    guard: &Guard<M>,
    session: &mut Session,
) -> Result<(), Fail>
    requires { session.old.walk.table ≡ M.table }
{
    let denying = b"profile p {\n  deny /f r,\n}\n";
    assert_eq!(rt; publish(rt, alloc, guard, denying)?, 2);
    expect_open(rt, guard, session, denied(2));
    let other = b"profile q {\n  /f r,\n}\n";
    assert_eq!(rt; publish_as(rt, alloc, guard, b"q", other)?, 3);
    expect_open(rt, guard, session, denied(3));
    assert_eq!(rt; guard.remove(rt, b"q"), Ok(4));
    expect_open(rt, guard, session, denied(4));
    assert_eq!(rt; guard.remove(rt, b"p"), Ok(5));
    expect_open(rt, guard, session, Answer::NoProfile { policy_version: 5 });
    Ok(())
}

fn guard_reads_back_of<M: Row, R: Abort + Wait>(
    rt: &R,
    alloc: Global,
    guard: &Guard<M>,
) -> Result<(), Fail> {
    let mut session = session(rt, guard)?;
    expect_allowed(rt, alloc, guard, &mut session)?;
    expect_denied(rt, alloc, guard, &mut session)?;
    let again = Change::Create(path(b"/f")?);
    assert_eq!(rt; guard.change(rt, &again), Err(Errno::EEXIST));
    Ok(())
}

fn guard_reads_back_by<M: Row, R: Abort + Wait>(
    rt: &R,
    alloc: Global,
    keeper: Keeper,
    publisher: Publisher,
) -> Result<(), Fail>
    requires { keeper.table ≡ M.table }
{
    let guard: Guard<M> = Guard::new(alloc, keeper, publisher);
    let outcome = guard_reads_back_of(rt, alloc, &guard);
    guard.close(rt);
    outcome
}

#[test]
fn guard_reads_back(rt: HostRuntime) -> Result<(), Fail> {
    let keeper = keeper(rt.alloc())?;
    let publisher = Publisher::new(rt.alloc())?;
    guard_reads_back_by::<Brand, _>(&rt, rt.alloc(), keeper, publisher)
}
