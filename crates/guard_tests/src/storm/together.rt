//! Two concurrent opens.
use crate::storm::fixtures::{keeper, storm_on};
use path_storm::{Gate, Plan, StormReport};
use std::alloc::Global;
use std::marker::Brand;
use std::process::Abort;
use std::sync::Wait;
use std::sync::atomic::{AtomicBool, Ordering};
use std::test::Fail;
use std::thread::{Threads, yield_now};

// A worker that waits longer fails the test, and continues.
const MOST_TURNS: u64 = 100_000_000;

// A worker yields every this many turns, so that the other one makes progress even on few processors.
const TURNS_AT_ONCE: u64 = 4096;

/// The first worker opens only after the second one has opened, and the second one only after the first one has begun: one at a
/// time, neither of them would open.
#[derive(Drop)]
struct Meeting {
    // The first worker is about to open.
    begun: AtomicBool,
    // The second worker has opened.
    opened: AtomicBool,
    failed: AtomicBool,
}

impl Meeting {
    fn wait_for(&self, flag: &AtomicBool) {
        for turn in 0..MOST_TURNS {
            if flag.load(Ordering::SeqCst) {
                return;
            }
            if turn % TURNS_AT_ONCE == 0 {
                yield_now();
            }
        }
        self.failed.store(true, Ordering::SeqCst);
    }
}

impl Gate for Meeting {
    fn before(&self, worker: u32, _call: u64) {
        if worker == 0 {
            self.begun.store(true, Ordering::SeqCst);
            self.wait_for(&self.opened);
        } else {
            self.wait_for(&self.begun);
        }
    }

    fn after(&self, worker: u32, _call: u64) {
        if worker == 1 {
            self.opened.store(true, Ordering::SeqCst);
        }
    }
}

fn meet<R: Abort + Threads + Wait + Sync>(rt: &R, alloc: Global) -> Result<(), Fail> {
    let plan = Plan {
        sessions: 2,
        opens: 1,
        changes: 0,
    };
    let meeting = Meeting {
        begun: AtomicBool::new(false),
        opened: AtomicBool::new(false),
        failed: AtomicBool::new(false),
    };
    let report = storm_on::<Brand, R, Meeting>(rt, alloc, keeper(alloc)?, &plan, &meeting)?;
    assert!(rt;
        !meeting.failed.load(Ordering::SeqCst),
        "one waited for the other"
    );
    let report = report.ok().ok_or("a storm")?;
    let wanted = StormReport {
        answers: 2,
        unjustified: 0,
    };
    assert_eq!(rt; report, wanted);
    Ok(())
}

#[test]
fn two_opens_at_once(rt: HostRuntime) -> Result<(), Fail> {
    meet(&rt, rt.alloc())
}
