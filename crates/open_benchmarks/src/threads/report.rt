//! What the plan asks for, each with its line.
use super::plan::Plan;
use super::rates::{BESIDES, Beside, Rate, Side, measure};
use super::routes::ROUTES;
use crate::opens::Tally;
use crate::scene::Scene;
use std::alloc::Global;
use std::io;
use std::io::Print;
use std::rt::Clock;
use std::sync::Wait;
use std::thread::Threads;

/// Does all that the plan asks for, and prints the times if it asks for them. Returns whether each change was made, and each open
/// was answered by what is there.
pub(crate) fn run_all<R: Clock + Print + Threads + Wait + Sync>(
    rt: &R,
    alloc: Global,
    plan: &Plan,
    scene: &mut Scene,
) -> io::Result<bool> {
    for beside in BESIDES {
        if !run_beside(rt, alloc, plan, scene, beside)? {
            return Ok(false);
        }
    }
    Ok(true)
}

fn run_beside<R: Clock + Print + Threads + Wait + Sync>(
    rt: &R,
    alloc: Global,
    plan: &Plan,
    scene: &mut Scene,
    beside: Beside,
) -> io::Result<bool> {
    for route in ROUTES {
        let one = Side {
            route,
            beside,
            kind: plan.kind,
            threads: 1,
            opens: plan.opens,
            rest: plan.rest,
        };
        let four = Side { threads: 4, ..one };
        if !run_side(rt, alloc, plan, scene, &one)? || !run_side(rt, alloc, plan, scene, &four)? {
            return Ok(false);
        }
    }
    Ok(true)
}

fn run_side<R: Clock + Print + Threads + Wait + Sync>(
    rt: &R,
    alloc: Global,
    plan: &Plan,
    scene: &mut Scene,
    side: &Side,
) -> io::Result<bool> {
    let Some(rate) = measure(rt, alloc, scene, side)? else {
        return Ok(false);
    };
    if plan.is_timed {
        print_rate(rt, side, &rate)?;
    }
    Ok(is_right(side.beside, &rate.opened.tally))
}

// Whether the opens were answered by what is there.
fn is_right(beside: Beside, tally: &Tally) -> bool {
    let may_be_busy = matches!(beside, Beside::OtherName | Beside::OwnName);
    let may_be_missing = beside == Beside::OwnName;
    tally.others == 0 && (tally.busy == 0 || may_be_busy) && (tally.missing == 0 || may_be_missing)
}

fn print_rate<R: Print>(rt: &R, side: &Side, rate: &Rate) -> io::Result<()> {
    let opens = side.opens.saturating_mul(side.threads as u64);
    let Tally { busy, missing, .. } = rate.opened.tally;
    println!(rt;
        "{} {} {} {opens} {} {busy} {missing} {}",
        side.route.name,
        side.beside.name(),
        side.threads,
        rate.opened.took.as_nanos(),
        rate.changes
    )
}
