//! Attempts to reach names that no entry has, and numbered names, before and after drawn changes, each with its line.
use super::attempts::{Aim, Tally};
use super::lines::print_time;
use super::numbered::Numbers;
use super::plan::Plan;
use super::timer::{time_attempts, time_drawn, time_numbers};
use crate::changes::path;
use crate::trees::numbered_files;
use dentry_cache::Keeper;
use std::alloc::{AllocError, Global};
use std::io;
use std::io::Print;
use std::rt::Clock;

/// For each number, from 1 on, whether a file has its name. There are twice as many numbers as such files; the files have the first
/// of them.
pub(crate) fn numbers_there(alloc: Global, plan: &Plan) -> Result<Vec<bool>, AllocError> {
    let files = numbered_files(plan.entries);
    let mut are_there = vec![in alloc; true; files]?;
    are_there.resize(files.saturating_mul(2), false)?;
    Ok(are_there)
}

/// The attempts before changes are drawn. Returns whether each that ended well found its file, or that there is none.
pub(crate) fn run_names<R: Clock + Print>(
    rt: &R,
    plan: &Plan,
    keeper: &mut Keeper,
    are_there: &[bool],
) -> io::Result<bool> {
    let (files, others) = are_there.split_at(are_there.len() / 2);
    let files = Numbers {
        first: 1,
        are_there: files,
    };
    let others = Numbers {
        first: files.are_there.len() + 1,
        are_there: others,
    };
    Ok(
        run_absent(rt, plan, keeper, "absent")?
            && run_numbers(rt, plan, keeper, "numbered", files, plan.attempts)?
            && run_numbers(rt, plan, keeper, "other_numbers", others, plan.attempts)?,
    )
}

/// The changes that are drawn, and the attempts after them, which go to each number at least once. Returns whether each change was
/// made, unless the tree had no room for a file, and each attempt was right.
pub(crate) fn run_drawn<R: Clock + Print>(
    rt: &R,
    plan: &Plan,
    keeper: &mut Keeper,
    are_there: &mut [bool],
) -> io::Result<bool> {
    let Some((took, made)) = time_drawn(rt, keeper, are_there, plan.drawn)? else {
        return Ok(false);
    };
    print_time(rt, plan, "drawn", made, took)?;
    let attempts = plan.attempts.max(are_there.len() as u64);
    let numbers = Numbers {
        first: 1,
        are_there,
    };
    Ok(
        run_absent(rt, plan, keeper, "absent_after")?
            && run_numbers(rt, plan, keeper, "numbers_after", numbers, attempts)?,
    )
}

fn run_absent<R: Clock + Print>(
    rt: &R,
    plan: &Plan,
    keeper: &mut Keeper,
    name: &str,
) -> io::Result<bool> {
    let (Some(path), Ok(walker)) = (path(b"/absent"), keeper.walker()) else {
        return Ok(false);
    };
    let aim = Aim {
        path: &path,
        is_there: false,
    };
    let (took, tally) = time_attempts(rt, walker, aim, plan.attempts)?;
    print_time(rt, plan, name, plan.attempts, took)?;
    Ok(tally == Tally::NONE)
}

fn run_numbers<R: Clock + Print>(
    rt: &R,
    plan: &Plan,
    keeper: &mut Keeper,
    name: &str,
    numbers: Numbers<'_>,
    attempts: u64,
) -> io::Result<bool> {
    let Ok(walker) = keeper.walker() else {
        return Ok(false);
    };
    let Some((took, tally)) = time_numbers(rt, walker, numbers, attempts)? else {
        return Ok(false);
    };
    print_time(rt, plan, name, attempts, took)?;
    Ok(tally == Tally::NONE)
}
