//! What storms did, by their logs: as many changes as planned, concurrently with the opens.
//!
//! That a storm opens and changes as often as planned is proved. That it does so concurrently isn't, and only this refuses a storm
//! that makes all changes before the first open, or all after the last.
ghost use Rattle.std.specs.Prelude.{◌≡◌};

use crate::storm::fixtures::keeper;
use dentry_cache::Keeper;
use justification::Answer;
use names::{Permission, Perms};
use path_storm::{FILE, Gate, Guard, PROFILE, Plan, Row, StormLog, StormReport, storm_log};
use std::alloc::Global;
use std::marker::Brand;
use std::process::Abort;
use std::sync::Wait;
use std::sync::atomic::{AtomicBool, Ordering};
use std::test::Fail;
use std::thread::{Threads, yield_now};
use storm_parts::new_publisher;

// A worker that opens more often fails the test, and continues.
const MOST_TURNS: u64 = 10_000_000;

// A worker yields every this many opens, so that the changes are made even on few processors.
const TURNS_AT_ONCE: u64 = 64;

// The directory and the file are made at versions 1 and 2, and the first rename at version 3.
const FIRST_RENAME: u64 = 3;

const PLAN: Plan = Plan {
    sessions: 4,
    opens: 300,
    changes: 600,
};

/// Each worker opens only after some session was answered at a version after the first rename.
#[derive(Drop)]
struct Later<'a, M: Row, R> {
    rt: &'a R,
    guard: &'a Guard<M>,
    failed: AtomicBool,
}

impl<M: Row, R: Wait> Later<'_, M, R> {
    /// Opens by a session of its own until that is so, and returns whether it is.
    fn is_later(&self) -> bool {
        let Ok(mut session) = self.guard.session(self.rt, PROFILE) else {
            return false;
        };
        let ask = Perms::NONE.with(Permission::Read);
        for turn in 0..MOST_TURNS {
            let answer = self.guard.open(self.rt, &mut session, FILE, ask);
            if tree_version(&answer) > FIRST_RENAME {
                return true;
            }
            if turn % TURNS_AT_ONCE == 0 {
                yield_now();
            }
        }
        false
    }
}

impl<M: Row, R: Wait> Gate for Later<'_, M, R> {
    fn before(&self, _worker: u32, call: u64) {
        if call == 1 && !self.is_later() {
            self.failed.store(true, Ordering::SeqCst);
        }
    }

    fn after(&self, _worker: u32, _call: u64) {}
}

/// The version of the tree that an answer is about, or 0.
fn tree_version(answer: &Answer) -> u64 {
    match answer {
        Answer::Judged { tree_version, .. } | Answer::Failed { tree_version, .. } => *tree_version,
        Answer::NoProfile { .. } | Answer::Busy { .. } | Answer::NoEntry => 0,
    }
}

/// Which answers there were.
#[derive(Clone, Copy)]
struct Seen {
    judged: bool,
    failed: bool,
    // There was one before the last rename.
    between: bool,
}

impl Seen {
    fn and(self, answer: &Answer) -> Seen {
        let last = PLAN.changes.saturating_add(2);
        let version = tree_version(answer);
        Seen {
            judged: self.judged || matches!(answer, Answer::Judged { .. }),
            failed: self.failed || matches!(answer, Answer::Failed { .. }),
            between: self.between || (version > FIRST_RENAME && version < last),
        }
    }

    fn and_all(self, answers: &[Answer]) -> Seen {
        let mut seen = self;
        for answer in answers {
            seen = seen.and(answer);
        }
        seen
    }
}

/// Asserts that as much was done as planned, and that all of it is right.
fn expect_planned(rt: &impl Abort, alloc: Global, log: &StormLog) -> Result<(), Fail> {
    assert_eq!(rt; log.tree.made.len() as u64, PLAN.changes.saturating_add(2));
    assert_eq!(rt;
        log.policy.made.len() as u64,
        PLAN.changes.saturating_add(1)
    );
    assert!(rt; log.tree.refused.is_empty() && log.policy.refused.is_empty());
    let report = log.report(alloc).ok().ok_or("a report")?;
    let wanted = StormReport {
        answers: u64::from(PLAN.sessions).saturating_mul(PLAN.opens),
        unjustified: 0,
    };
    assert_eq!(rt; report, wanted);
    Ok(())
}

/// Runs a storm in which each worker waits for an answer after the first rename.
fn later_storm<'a, M: Row + Send + Sync, R: Abort + Threads + Wait + Sync>(
    rt: &'a R,
    alloc: Global,
    guard: &'a Guard<M>,
) -> Result<StormLog, Fail> {
    let gate = Later {
        rt,
        guard,
        failed: AtomicBool::new(false),
    };
    let outcome = storm_log(rt, alloc, guard, &PLAN, &gate);
    assert!(rt;
        !gate.failed.load(Ordering::SeqCst),
        "no answer after the first rename"
    );
    Ok(outcome.ok().ok_or("a storm")?)
}

/// Returns which answers a storm on a guard of this keeper had, and those before it.
fn seen_on<M: Row + Send + Sync, R: Abort + Threads + Wait + Sync>(
    rt: &R,
    alloc: Global,
    keeper: Keeper,
    before: Seen,
) -> Result<Seen, Fail>
    requires { keeper.table ≡ M.table }
{
    let guard: Guard<M> = Guard::new(alloc, keeper, new_publisher(alloc)?);
    let outcome = later_storm(rt, alloc, &guard);
    guard.close(rt);
    let log = outcome?;
    expect_planned(rt, alloc, &log)?;
    let mut seen = before;
    for own in &log.sessions {
        seen = seen.and_all(&own.answers);
    }
    Ok(seen)
}

// Where the processors have other work, all changes of one storm may be made before its first open.
const MOST_STORMS: u32 = 200;

fn expect_between<R: Abort + Threads + Wait + Sync>(rt: &R, alloc: Global) -> Result<(), Fail> {
    let mut seen = Seen {
        judged: false,
        failed: false,
        between: false,
    };
    for _ in 0..MOST_STORMS {
        if seen.judged && seen.failed && seen.between {
            return Ok(());
        }
        seen = seen_on::<Brand, R>(rt, alloc, keeper(alloc)?, seen)?;
    }
    Err(Fail::from("no open was concurrent with the changes"))
}

#[test]
fn opens_between_changes(rt: HostRuntime) -> Result<(), Fail> {
    expect_between(&rt, rt.alloc())
}
