//! What the plan asks for, each with its line.
use super::files::DEPTHS;
use super::plan::Plan;
use super::rates::{MIXES, Side, measure};
use crate::opens::Opened;
use crate::scene::{Scene, SessionKind};
use std::alloc::Global;
use std::io;
use std::io::Print;
use std::rt::Clock;
use std::thread::Threads;

/// Does all that the plan asks for, and prints the times if it asks for them. Returns whether each open was allowed.
pub(crate) fn run_all<R: Clock + Print + Threads + Sync>(
    rt: &R,
    alloc: Global,
    plan: &Plan,
    scene: &mut Scene,
) -> io::Result<bool> {
    for depth in DEPTHS {
        if !run_depth(rt, alloc, plan, scene, depth)? {
            return Ok(false);
        }
    }
    Ok(true)
}

fn run_depth<R: Clock + Print + Threads + Sync>(
    rt: &R,
    alloc: Global,
    plan: &Plan,
    scene: &mut Scene,
    depth: usize,
) -> io::Result<bool> {
    for mix in MIXES {
        let one = Side {
            mix,
            depth,
            threads: 1,
            kind: SessionKind::Plain,
            opens: plan.opens,
        };
        let four = Side { threads: 4, ..one };
        if !run_kinds(rt, alloc, plan, scene, &one)? || !run_kinds(rt, alloc, plan, scene, &four)? {
            return Ok(false);
        }
    }
    Ok(true)
}

// The same opens by sessions of either kind.
fn run_kinds<R: Clock + Print + Threads + Sync>(
    rt: &R,
    alloc: Global,
    plan: &Plan,
    scene: &mut Scene,
    plain: &Side,
) -> io::Result<bool> {
    let kept = Side {
        kind: SessionKind::Kept,
        ..*plain
    };
    Ok(run_side(rt, alloc, plan, scene, plain)? && run_side(rt, alloc, plan, scene, &kept)?)
}

fn run_side<R: Clock + Print + Threads + Sync>(
    rt: &R,
    alloc: Global,
    plan: &Plan,
    scene: &mut Scene,
    side: &Side,
) -> io::Result<bool> {
    let opened = measure(rt, alloc, scene, side)?;
    let are_all_allowed = opened.tally.allowed == side.all_opens();
    if plan.is_timed {
        print_opened(rt, side, &opened, are_all_allowed)?;
    }
    Ok(are_all_allowed)
}

fn print_opened<R: Print>(
    rt: &R,
    side: &Side,
    opened: &Opened,
    are_all_allowed: bool,
) -> io::Result<()> {
    let opens = side.all_opens();
    let outcome = if are_all_allowed {
        "allowed"
    } else {
        "not_allowed"
    };
    println!(rt;
        "{} {} {} {} {opens} {} {outcome}",
        side.mix.name,
        side.depth,
        side.threads,
        side.kind.name(),
        opened.took.as_nanos()
    )
}
