//! One piece of work over a tree in a row in memory, repeated and timed.
ghost use Rattle.std.specs.Prelude.{◌≤◌};

mod plan;
mod tree;
mod work;

use self::plan::planned;
use self::tree::Tree;
use self::work::{Work, work_of};
use crate::trees::grow;
use std::alloc::{AllocError, Global};
use std::io;
use std::io::Print;
use std::rt::Clock;
use std::time::Instant;
use tree_row::MOST_ENTRIES;

/// Plans a change, or follows a path, COUNT times in a tree that has room for CAPACITY entries and is half full, and prints how
/// many cells were planned, or how many bytes the names had. With a fourth word it also prints how many nanoseconds that took,
/// without the making of the tree. The words are `WORK CAPACITY COUNT [timed]`; with none it does a little work in a small tree.
pub fn time_row<R: Clock + Print>(rt: &R, alloc: Global, words: &[String]) -> io::Result<()> {
    let Some(plan) = planned(words) else {
        return println!(rt;
            "usage: row [WORK CAPACITY COUNT [timed]], with a CAPACITY of 64 to {MOST_ENTRIES}"
        );
    };
    let mut tree = half_full(alloc, plan.capacity);
    let start = Instant::now(rt)?;
    let done = done(&mut tree, plan.work.as_bytes(), plan.count);
    let nanoseconds = start.elapsed(rt)?.as_nanos();
    let line = report(alloc, plan.work, done, plan.is_timed.then_some(nanoseconds))?;
    println!(rt; "{line}")
}

// A tree that has room for `capacity` entries, and half of them; none where memory is refused.
fn half_full(alloc: Global, capacity: usize) -> Option<Tree>
    requires { capacity ≤ MOST_ENTRIES }
{
    let mut tree = Tree::new(alloc, capacity)?;
    if grow(&mut tree, capacity / 2) {
        Some(tree)
    } else {
        None
    }
}

// How much was done in all; none where there is no such work, or it can't be done.
fn done(tree: &mut Option<Tree>, word: &[u8], count: usize) -> Option<u64> {
    let Some(tree) = tree else {
        return None;
    };
    match work_of(word)? {
        Work::Change(change) => tree.plan_often(&change, count),
        Work::Walk(path) => tree.reach_often(&path, count),
    }
}

fn report(
    alloc: Global,
    work: &str,
    done: Option<u64>,
    nanoseconds: Option<u128>,
) -> Result<String, AllocError> {
    match (done, nanoseconds) {
        (Some(done), None) => format!(in alloc; "{work} {done}"),
        (Some(done), Some(nanoseconds)) => format!(in alloc; "{work} {done} {nanoseconds}"),
        (None, _) => format!(in alloc; "{work} can't be done"),
    }
}
