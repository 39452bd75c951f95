//! Published profiles, read in threads while one publisher changes them.
mod plan;
mod rates;
mod storm;

use self::plan::{Plan, planned};
use self::rates::{Share, publish_names, rate};
use self::storm::storm;
use profile_registry::Publisher;
use std::alloc::Global;
use std::io;
use std::io::Print;
use std::rt::Clock;
use std::sync::Wait;
use std::thread::Threads;

/// Makes CHANGES changes concurrently with READERS readers, and then times READS reads in each thread: in one, in four of which
/// each reads all names, and in four of which each has names of its own. The words are `READERS CHANGES READS`; with none it makes
/// a few changes concurrently with two readers, and times nothing.
pub(crate) fn time_registry<R: Clock + Print + Threads + Wait + Sync>(
    rt: &R,
    alloc: Global,
    words: &[String],
) -> io::Result<()> {
    let Some(plan) = planned(words) else {
        return println!(rt; "usage: registry [READERS CHANGES READS]");
    };
    let Ok(mut publisher) = Publisher::new(alloc) else {
        return println!(rt; "no memory");
    };
    let outcome = run(rt, alloc, &plan, &mut publisher);
    publisher.close(rt);
    outcome
}

fn run<R: Clock + Print + Threads + Wait + Sync>(
    rt: &R,
    alloc: Global,
    plan: &Plan,
    publisher: &mut Publisher,
) -> io::Result<()> {
    let outcome = match storm(rt, alloc, plan, publisher) {
        Ok(true) => "each pair that was read had been published",
        Ok(false) => "a pair was read that had not been published",
        Err(_) => "no memory",
    };
    println!(rt;
        "{} readers, {} changes: {outcome}",
        plan.readers, plan.changes
    )?;
    if plan.reads == 0 {
        return Ok(());
    }
    let Ok(names) = publish_names(rt, alloc, publisher) else {
        return println!(rt; "no memory");
    };
    let one = rate(rt, alloc, publisher, &names, 1, Share::All, plan.reads)?;
    println!(rt; "one: {one} reads a second")?;
    let all = rate(rt, alloc, publisher, &names, 4, Share::All, plan.reads)?;
    println!(rt; "four_all: {all} reads a second")?;
    let own = rate(rt, alloc, publisher, &names, 4, Share::Own, plan.reads)?;
    println!(rt; "four_own: {own} reads a second")
}
