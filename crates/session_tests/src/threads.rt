//! A session concurrent with a keeper that is at work in another thread.
ghost use Rattle.std.specs.Prelude.{◌≡◌};

use crate::fixtures::{FILE, expect_with, judged, opened, publish};
use dentry_cache::Keeper;
use directory_tree::Change;
use matcher::PolicyChange;
use names::Perms;
use path_session::{Answer, Session, justify};
use profile_registry::Publisher;
use rule_text::Verdict;
use std::alloc::Global;
use std::process::Abort;
use std::sync::Wait;
use std::test::Fail;
use std::thread::{Threads, join};
use storm_parts::{apply, compiled, new_keeper, new_publisher, session};
use test_parts::{path, perms};

/// The number of times that a directory is renamed, back and forth.
const RENAMES: u64 = 600;

/// The last version: before the renames the directory is made, and a file in it.
const LAST: u64 = RENAMES + 2;

/// A session gives up after this many opens, which take some seconds; the renames take some milliseconds.
const OPENS: u64 = 1 << 22;

// The directory is `/d` at each even version, and `/e` at each odd one.
fn changes(alloc: Global) -> Result<Vec<Change<'static>>, Fail> {
    let mut changes: Vec<Change<'static>> = Vec::new(alloc);
    changes.push(Change::Mkdir(path(b"/d")?))?;
    changes.push(Change::Create(path(b"/d/f")?))?;
    for round in 0..RENAMES {
        let (d, e) = (path(b"/d")?, path(b"/e")?);
        let rename = if round % 2 == 0 {
            Change::Rename(d, e)
        } else {
            Change::Rename(e, d)
        };
        changes.push(rename)?;
    }
    Ok(changes)
}

// Makes the changes. Returns whether each was made.
fn make_all(keeper: Keeper, changes: &[Change<'static>]) -> (Keeper, bool)
    ensures { result.0.table ≡ keeper.table }
{
    let mut keeper = keeper;
    for change in changes {
        if apply(&mut keeper, change).is_err() {
            return (keeper, false);
        }
    }
    (keeper, true)
}

fn tree_version(answer: &Answer) -> Option<u64> {
    match answer {
        Answer::Judged { tree_version, .. } => Some(*tree_version),
        Answer::Failed { tree_version, .. } => Some(*tree_version),
        Answer::NoProfile { .. } | Answer::Busy { .. } | Answer::NoEntry => None,
    }
}

// Opens the file until the last version is seen, and records each answer that differs from that of the open before. Returns
// whether it was seen.
fn open_often(session: Session, ask: Perms, answers: Vec<Answer>) -> (Session, Vec<Answer>, bool)
    ensures { result.0.walk.table ≡ session.walk.table }
{
    let mut session = session;
    let mut answers = answers;
    for _ in 0..OPENS {
        let answer = session.try_open(b"/d/f", ask);
        if answers.last() != Some(&answer) && answers.push(answer).is_err() {
            return (session, answers, false);
        }
        if tree_version(&answer) == Some(LAST) {
            return (session, answers, true);
        }
    }
    (session, answers, false)
}

// Each answer is justified by the changes that were actually made.
fn justify_all(
    rt: &impl Abort,
    alloc: Global,
    answers: &[Answer],
    changes: &[Change<'static>],
    policy: &[PolicyChange],
) -> Result<(), Fail> {
    let ask = perms(b"r")?;
    for answer in answers {
        let holds = justify(alloc, answer, b"p", b"/d/f", ask, changes, policy)?;
        assert!(rt; holds, "{answer:?}");
    }
    Ok(())
}

fn run<R: Abort + Threads + Wait + Sync>(
    rt: &R,
    alloc: Global,
    publisher: &mut Publisher,
) -> Result<(), Fail> {
    let profile = compiled(alloc, b"profile p {\n  /d/* r,\n}\n")?;
    publish(rt, publisher, b"p", &profile)?;
    let policy = [PolicyChange::Replace(Vec::from_slice(alloc, b"p")?, profile)];
    let changes = changes(alloc)?;
    let ask = perms(b"r")?;
    let mut keeper = new_keeper(alloc)?;
    let session = session(alloc, &mut keeper, publisher, b"p")?;
    let answers: Vec<Answer> = Vec::new(alloc);
    let ((mut keeper, made), (session, answers, seen)) = join(
        rt,
        || make_all(keeper, &changes),
        move || open_often(session, ask, answers),
    );
    assert!(rt; made, "a change that is refused");
    assert!(rt; seen, "the last version isn't seen");
    justify_all(rt, alloc, &answers, &changes, &policy)?;
    let mut session = session;
    let last = judged(Verdict::Allowed, FILE, LAST);
    expect_with(
        rt,
        &mut session,
        &mut keeper,
        &[opened(b"/d/f", b"r", last, b"/d/f")],
    )
}

#[test]
fn opens_beside_renames(rt: HostRuntime) -> Result<(), Fail> {
    let mut publisher = new_publisher(rt.alloc())?;
    let outcome = run(&rt, rt.alloc(), &mut publisher);
    publisher.close(&rt);
    outcome
}
