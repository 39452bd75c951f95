//! Opens by sessions in threads, concurrently with a keeper that renames and a publisher that replaces the profile.
mod changes;
mod plan;
mod rates;
mod report;
mod routes;

use self::plan::planned;
use self::report::run_all;
use crate::scene::Scene;
use crate::tree::grown;
use std::alloc::Global;
use std::io;
use std::io::Print;
use std::rt::Clock;
use std::sync::Wait;
use std::thread::Threads;

/// Opens each file OPENS times in each thread, by the profile of this text, in a tree that has room for CAPACITY entries, and
/// prints whether each open was answered by what is there; between two changes there is a rest of REST microseconds. The words are
/// `CAPACITY OPENS REST plain`, or `kept` in place of `plain` for sessions that keep verdicts; with none it opens each file a few
/// times by sessions that keep none, and times nothing.
///
/// What is timed has a line of its own: the name of the file, what is changed meanwhile, how many threads open it, how many opens
/// that were, how many nanoseconds they took, how many were answered `Busy`, how many were refused because a directory's name was
/// gone, and how many changes were made meanwhile.
pub fn time_opens<R: Clock + Print + Threads + Wait + Sync>(
    rt: &R,
    alloc: Global,
    words: &[String],
    profile: &[u8],
) -> io::Result<()> {
    let Some(plan) = planned(words) else {
        return println!(rt;
            "usage: open [CAPACITY OPENS REST plain|kept], with a profile on standard input"
        );
    };
    let Some(keeper) = grown(alloc, plan.capacity) else {
        return println!(rt; "no memory");
    };
    let Some(mut scene) = Scene::new(rt, alloc, keeper, profile) else {
        return println!(rt; "no memory, or no profile");
    };
    let ran = run_all(rt, alloc, &plan, &mut scene);
    scene.close(rt);
    let outcome = if ran? {
        "each open was answered by what stands there"
    } else {
        "a change was refused, or an open wasn't answered by what stands there"
    };
    println!(rt; "{} entries: {outcome}", plan.capacity)
}
