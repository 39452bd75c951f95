//! The lines of what is timed.
use super::attempts::Tally;
use super::plan::Plan;
use super::rates::{Rate, Side};
use std::io;
use std::io::Print;
use std::time::Duration;

/// The line of what was done `count` times, if times are printed.
pub(crate) fn print_time<R: Print>(
    rt: &R,
    plan: &Plan,
    name: &str,
    count: u64,
    took: Duration,
) -> io::Result<()> {
    if plan.is_timed {
        println!(rt; "{name} {count} {}", took.as_nanos())
    } else {
        Ok(())
    }
}

/// The line of walkers in several threads, if times are printed.
pub(crate) fn print_rate<R: Print>(rt: &R, plan: &Plan, side: Side, rate: &Rate) -> io::Result<()> {
    let Rate {
        took,
        tally: Tally { busy, .. },
        renames,
    } = rate;
    let count = plan.attempts.saturating_mul(side.walkers as u64);
    if plan.is_timed {
        println!(rt;
            "{} {count} {} {busy} {renames}",
            side.name,
            took.as_nanos()
        )
    } else {
        Ok(())
    }
}
