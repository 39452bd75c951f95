//! What the plan asks for, each with its line.
use super::attempts::{Aim, Tally};
use super::drawn_names::{numbers_there, run_drawn, run_names};
use super::lines::{print_rate, print_time};
use super::plan::Plan;
use super::rates::{SIDES, measure};
use super::timer::{time_attempts, time_changes, time_clock, time_meets};
use super::trips::{KINDS, trip_of};
use crate::changes::path;
use crate::trees::{DEEPEST, middle_name};
use dentry_cache::Keeper;
use names::Path;
use std::alloc::Global;
use std::io;
use std::io::Print;
use std::rt::Clock;
use std::thread::Threads;

/// Does all that the plan asks for, and prints the times where it asks for them. Returns whether each change was made, and each
/// walk that ended well found what is there.
pub(crate) fn run_all<R: Clock + Print + Threads + Sync>(
    rt: &R,
    alloc: Global,
    plan: &Plan,
    keeper: &mut Keeper,
) -> io::Result<bool> {
    let middle = middle_name(plan.entries);
    let Some(middle) = path(&middle) else {
        return Ok(false);
    };
    let middle = there(&middle);
    let mut are_there = numbers_there(alloc, plan)?;
    Ok(
        run_changes(rt, plan, keeper)?
            && run_walks(rt, plan, keeper, middle)?
            && run_names(rt, plan, keeper, &are_there)?
            && run_meets(rt, plan, keeper)?
            && run_sides(rt, alloc, plan, keeper, middle)?
            && run_drawn(rt, plan, keeper, &mut are_there)?,
    )
}

// Attempts that go to an entry.
fn there<'a>(path: &'a Path<'a>) -> Aim<'a> {
    Aim {
        path,
        is_there: true,
    }
}

// Each kind of change, and the clock that times it.
fn run_changes<R: Clock + Print>(rt: &R, plan: &Plan, keeper: &mut Keeper) -> io::Result<bool> {
    print_time(
        rt,
        plan,
        "clock",
        plan.changes,
        time_clock(rt, plan.changes)?,
    )?;
    for kind in KINDS {
        let Some(trip) = trip_of(kind.as_bytes()) else {
            return Ok(false);
        };
        let Some(took) = time_changes(rt, keeper, &trip, plan.changes)? else {
            return Ok(false);
        };
        print_time(rt, plan, kind, plan.changes, took)?;
    }
    Ok(true)
}

// Walks of one thread: to directories 1, 4 and 16 deep, and to the middle one of the files with numbered names.
fn run_walks<R: Clock + Print>(
    rt: &R,
    plan: &Plan,
    keeper: &mut Keeper,
    middle: Aim<'_>,
) -> io::Result<bool> {
    let (Some(walk1), Some(walk4), Some(walk16)) = (path(b"/d"), path(b"/d/d/d/d"), path(DEEPEST))
    else {
        return Ok(false);
    };
    Ok(
        run_walk(rt, plan, keeper, "walk1", there(&walk1))?
            && run_walk(rt, plan, keeper, "walk4", there(&walk4))?
            && run_walk(rt, plan, keeper, "walk16", there(&walk16))?
            && run_walk(rt, plan, keeper, "middle", middle)?,
    )
}

fn run_walk<R: Clock + Print>(
    rt: &R,
    plan: &Plan,
    keeper: &mut Keeper,
    name: &str,
    aim: Aim<'_>,
) -> io::Result<bool> {
    let Ok(walker) = keeper.walker() else {
        return Ok(false);
    };
    let (took, tally) = time_attempts(rt, walker, aim, plan.attempts)?;
    print_time(rt, plan, name, plan.attempts, took)?;
    Ok(tally == Tally::NONE)
}

fn run_meets<R: Clock + Print>(rt: &R, plan: &Plan, keeper: &mut Keeper) -> io::Result<bool> {
    let Some(took) = time_meets(rt, keeper, plan.attempts)? else {
        return Ok(false);
    };
    print_time(rt, plan, "meet", plan.attempts, took)?;
    Ok(true)
}

// Walkers in several threads, all of which walk to one file.
fn run_sides<R: Clock + Print + Threads + Sync>(
    rt: &R,
    alloc: Global,
    plan: &Plan,
    keeper: &mut Keeper,
    file: Aim<'_>,
) -> io::Result<bool> {
    for side in SIDES {
        let Some(rate) = measure(rt, alloc, keeper, side, file, plan.attempts)? else {
            return Ok(false);
        };
        print_rate(rt, plan, side, &rate)?;
        if rate.tally.wrong > 0 || rate.tally.busy > 0 && !side.is_beside {
            return Ok(false);
        }
    }
    Ok(true)
}
