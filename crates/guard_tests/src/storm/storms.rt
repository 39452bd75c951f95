//! Storms, with and without changes.
use crate::storm::fixtures::{keeper, storm_on};
use path_storm::{Open, Plan, StormReport};
use std::alloc::Global;
use std::marker::Brand;
use std::process::Abort;
use std::sync::Wait;
use std::test::Fail;
use std::thread::Threads;

fn expect_justified<R: Abort + Threads + Wait + Sync>(
    rt: &R,
    alloc: Global,
    plan: &Plan,
) -> Result<(), Fail> {
    let report = storm_on::<Brand, R, Open>(rt, alloc, keeper(alloc)?, plan, &Open)?;
    let report = report.ok().ok_or("a storm")?;
    let answers = u64::from(plan.sessions).saturating_mul(plan.opens);
    let wanted = StormReport {
        answers,
        unjustified: 0,
    };
    assert_eq!(rt; report, wanted);
    Ok(())
}

#[test]
fn nothing_changes(rt: HostRuntime) -> Result<(), Fail> {
    let plan = Plan {
        sessions: 2,
        opens: 10,
        changes: 0,
    };
    expect_justified(&rt, rt.alloc(), &plan)
}

#[test]
fn all_changes(rt: HostRuntime) -> Result<(), Fail> {
    let plan = Plan {
        sessions: 4,
        opens: 200,
        changes: 200,
    };
    expect_justified(&rt, rt.alloc(), &plan)
}

#[test]
fn nobody_opens(rt: HostRuntime) -> Result<(), Fail> {
    let plan = Plan {
        sessions: 0,
        opens: 7,
        changes: 3,
    };
    expect_justified(&rt, rt.alloc(), &plan)
}
