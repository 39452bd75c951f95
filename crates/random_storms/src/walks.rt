//! Walks over a row in threads while its keeper changes it at random, each compared afterwards with a plain tree.
mod answers;
mod ours;
mod plan;
mod reach;
mod replay;
mod storm;
mod walker;

use self::plan::{Plan, planned};
use self::storm::{Outcome, storm};
use std::alloc::Global;
use std::io;
use std::io::{Eprint, Print};
use std::thread::Threads;

/// Has WALKERS walkers make ATTEMPTS attempts each concurrently with CHANGES changes, and prints whether each walk that ended well
/// found what the plain tree of its version has. The words are `WALKERS CHANGES ATTEMPTS`; with none four walkers make ten thousand
/// attempts each, concurrently with ten thousand changes.
pub(crate) fn storm_of_walks<R: Print + Eprint + Threads>(
    rt: &R,
    alloc: Global,
    words: &[String],
) -> io::Result<()> {
    let Some(plan) = planned(words) else {
        return println!(rt; "usage: walk [WALKERS CHANGES ATTEMPTS]");
    };
    match storm(rt, alloc, &plan) {
        Ok(outcome) => report(rt, &plan, &outcome),
        Err(_) => println!(rt; "no memory"),
    }
}

fn report<R: Print + Eprint>(rt: &R, plan: &Plan, outcome: &Outcome) -> io::Result<()> {
    let verdict = if outcome.differing == 0 {
        "no answer differs"
    } else {
        "some answers differ"
    };
    println!(rt;
        "{} walkers beside {} changes: {verdict}",
        plan.walkers, plan.changes
    )?;
    eprintln!(rt;
        "answers: ok {}, busy {}, differing {}; changes made: {}",
        outcome.ok, outcome.busy, outcome.differing, outcome.made
    )
}
