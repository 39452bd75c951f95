//! Opens of the same files again and again, by sessions that keep verdicts and by sessions that keep none.
mod files;
mod plan;
mod rates;
mod report;

use self::files::{CAPACITY, grown_with_files};
use self::plan::planned;
use self::report::run_all;
use crate::scene::Scene;
use std::alloc::Global;
use std::io;
use std::io::Print;
use std::rt::Clock;
use std::sync::Wait;
use std::thread::Threads;

/// Opens files OPENS times in each thread, by the profile of this text: the same file, and 64, 65 and 500 in turn. Prints whether
/// each open was allowed. The word is `OPENS`; with none files are opened a few times, and nothing is timed.
///
/// What is timed has a line of its own: which files are opened, how many directories down they are, how many threads open them, by
/// which sessions, how many opens that were, how many nanoseconds they took, and whether all of them were allowed.
pub fn time_kept<R: Clock + Print + Threads + Wait + Sync>(
    rt: &R,
    alloc: Global,
    words: &[String],
    profile: &[u8],
) -> io::Result<()> {
    let Some(plan) = planned(words) else {
        return println!(rt; "usage: kept [OPENS], with a profile on standard input");
    };
    let Some(keeper) = grown_with_files(alloc) else {
        return println!(rt; "no memory");
    };
    let Some(mut scene) = Scene::new(rt, alloc, keeper, profile) else {
        return println!(rt; "no memory, or no profile");
    };
    let ran = run_all(rt, alloc, &plan, &mut scene);
    scene.close(rt);
    let outcome = if ran? {
        "each open was allowed"
    } else {
        "an open wasn't allowed"
    };
    println!(rt; "{CAPACITY} entries: {outcome}")
}
