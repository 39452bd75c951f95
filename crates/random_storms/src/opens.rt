//! Opens of random paths in threads, by several profiles, concurrently with random changes of the tree and of the policy.
mod answers;
mod changes;
mod fault;
mod notes;
mod plan;
mod publication;
mod scene;
mod sessions;
mod storm;
mod tally;
mod threads;

use self::fault::Fault;
use self::plan::planned;
use self::storm::{Outcome, storm};
use std::alloc::Global;
use std::io;
use std::io::{Eprint, Print};
use std::sync::Wait;
use std::thread::Threads;

/// Has SESSIONS sessions make OPENS opens each concurrently with CHANGES changes of the tree and as many of the policy, all drawn
/// from the seed SEED, and prints how many answers there were and how many of them are not justified by what was really changed.
/// With LEFT_OUT, the change of the tree with that number is left out when the answers are checked: then many of them aren't
/// justified. The words are `SEED SESSIONS OPENS CHANGES [LEFT_OUT]`; with none four sessions make a thousand opens each
/// concurrently with a thousand changes of both, drawn from the seed 1.
pub(crate) fn storm_of_opens<R: Print + Eprint + Threads + Wait + Sync>(
    rt: &R,
    alloc: Global,
    words: &[String],
) -> io::Result<()> {
    let Some(plan) = planned(words) else {
        return println!(rt; "usage: open [SEED SESSIONS OPENS CHANGES [LEFT_OUT]]");
    };
    match storm(rt, alloc, &plan) {
        Ok(outcome) => report(rt, &outcome),
        Err(Fault::NoMemory) => println!(rt; "no memory"),
        Err(Fault::NoThread) => println!(rt; "no thread"),
        Err(Fault::NoSeat) => println!(rt; "no seat"),
        Err(Fault::NoVersion) => println!(rt; "versions that don't follow one another"),
    }
}

fn report<R: Print + Eprint>(rt: &R, outcome: &Outcome) -> io::Result<()> {
    let counts = outcome.counts;
    println!(rt;
        "answers {} unjustified {}",
        counts.answers, counts.unjustified
    )?;
    eprintln!(rt;
        "judged: allowed {}, denied {}, no rule {}, of these {} as kept; failed {}, without profile {}, busy {}, no entry {}",
        counts.allowed,
        counts.denied,
        counts.no_rule,
        counts.kept,
        counts.failed,
        counts.no_profile,
        counts.busy,
        counts.no_entry
    )?;
    eprintln!(rt;
        "changes made: {} of the tree, {} of the policy",
        outcome.changes, outcome.policy_changes
    )
}
