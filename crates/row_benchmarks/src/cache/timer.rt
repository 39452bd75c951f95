//! What one thread does, timed.
ghost use Rattle.std.specs.Prelude.{◌≡◌};

use super::attempts::{Aim, Tally, walk_often};
use super::draws::draw_changes;
use super::numbered::{Numbers, walk_numbers};
use super::trips::Trip;
use dentry_cache::{Keeper, Walker};
use std::io;
use std::rt::Clock;
use std::time::{Duration, Instant};

/// How long `count` changes took, without their undoing; none where one wasn't made.
pub(crate) fn time_changes<R: Clock>(
    rt: &R,
    keeper: &mut Keeper,
    trip: &Trip,
    count: u64,
) -> io::Result<Option<Duration>> {
    let mut took = Duration::ZERO;
    for _ in 0..count {
        let start = Instant::now(rt)?;
        let is_made = keeper.apply(&trip.there).is_ok();
        took = took.saturating_add(start.elapsed(rt)?);
        if !is_made || !trip.undo(keeper) {
            return Ok(None);
        }
    }
    Ok(Some(took))
}

/// How long the same takes where nothing is changed: this part of each time is the clock's.
pub(crate) fn time_clock<R: Clock>(rt: &R, count: u64) -> io::Result<Duration> {
    let mut took = Duration::ZERO;
    for _ in 0..count {
        let start = Instant::now(rt)?;
        took = took.saturating_add(start.elapsed(rt)?);
    }
    Ok(took)
}

/// How long `count` attempts took, and their outcome.
pub(crate) fn time_attempts<R: Clock>(
    rt: &R,
    walker: Walker,
    aim: Aim<'_>,
    count: u64,
) -> io::Result<(Duration, Tally)> {
    let start = Instant::now(rt)?;
    let (_, tally) = walk_often(walker, aim, count);
    Ok((start.elapsed(rt)?, tally))
}

/// How long `count` attempts to reach numbers took, and their outcome; none if there are no numbers.
pub(crate) fn time_numbers<R: Clock>(
    rt: &R,
    walker: Walker,
    numbers: Numbers<'_>,
    count: u64,
) -> io::Result<Option<(Duration, Tally)>> {
    let start = Instant::now(rt)?;
    let Some((_, tally)) = walk_numbers(walker, numbers, count) else {
        return Ok(None);
    };
    Ok(Some((start.elapsed(rt)?, tally)))
}

/// How long it took to draw `drawn` changes and make them, and how many were made; none if one is refused.
pub(crate) fn time_drawn<R: Clock>(
    rt: &R,
    keeper: &mut Keeper,
    are_there: &mut [bool],
    drawn: u64,
) -> io::Result<Option<(Duration, u64)>> {
    let start = Instant::now(rt)?;
    let Some(made) = draw_changes(keeper, are_there, drawn) else {
        return Ok(None);
    };
    Ok(Some((start.elapsed(rt)?, made)))
}

/// How long a walker took to meet its keeper `count` times; none where no walker can be had.
pub(crate) fn time_meets<R: Clock>(
    rt: &R,
    keeper: &mut Keeper,
    count: u64,
) -> io::Result<Option<Duration>> {
    let Ok(mut walker) = keeper.walker() else {
        return Ok(None);
    };
    let start = Instant::now(rt)?;
    for _ in 0..count {
        keeper.meet(&mut walker);
    }
    Ok(Some(start.elapsed(rt)?))
}
