//! Changes of the tree that threads share, and walks over it, in one thread and in several.
mod attempts;
mod drawn_names;
mod draws;
mod lines;
mod numbered;
mod plan;
mod rates;
mod report;
mod timer;
mod tree;
mod trips;

use self::plan::planned;
use self::report::run_all;
use self::tree::filled;
use crate::trees::FEWEST_ENTRIES;
use std::alloc::Global;
use std::io;
use std::io::Print;
use std::rt::Clock;
use std::thread::Threads;
use tree_row::MOST_ENTRIES;

/// Makes CHANGES changes of each kind in a tree that has room for CAPACITY entries and is filled to TENTHS tenths of it, and
/// ATTEMPTS attempts of each walk in each thread; then DRAWN changes of drawn files with numbered names, and the walks to names that
/// no entry has, and to numbered names, once more. Prints whether each walk that ended well found its file, or that there is none.
/// The words are `CAPACITY TENTHS CHANGES ATTEMPTS DRAWN`; with none it does a little in a small tree, and times nothing.
///
/// What is timed has a line of its own: its name, how often it was done, and how many nanoseconds that took; for walks in several
/// threads also how many were busy, and how many changes were made meanwhile.
pub fn time_cache<R: Clock + Print + Threads + Sync>(
    rt: &R,
    alloc: Global,
    words: &[String],
) -> io::Result<()> {
    let Some(plan) = planned(words) else {
        return println!(rt;
            "usage: cache [CAPACITY TENTHS CHANGES ATTEMPTS DRAWN], with a CAPACITY of {FEWEST_ENTRIES} to {MOST_ENTRIES}, {}",
            "and at most 9 TENTHS that are 20 entries or more"
        );
    };
    let Some(mut keeper) = filled(alloc, plan.capacity, plan.entries) else {
        return println!(rt; "no memory");
    };
    let outcome = if run_all(rt, alloc, &plan, &mut keeper)? {
        "each change was made, and each walk that ended well found its file"
    } else {
        "a change was refused, or a walk that ended well didn't find its file"
    };
    println!(rt; "{} entries: {outcome}", plan.capacity)
}
