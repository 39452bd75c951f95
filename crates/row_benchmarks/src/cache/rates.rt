//! Walkers in several threads, timed.
use super::attempts::{Aim, Tally, walk_often};
use crate::changes::path;
use dentry_cache::{Keeper, Walker};
use directory_tree::Change;
use std::alloc::{AllocError, Global};
use std::io;
use std::rt::Clock;
use std::sync::atomic::{AtomicBool, Ordering};
use std::thread::{Threads, join, map_vec};
use std::time::{Duration, Instant};

/// Walkers that run at the same time.
#[derive(Clone, Copy)]
pub(crate) struct Side {
    pub name: &'static str,
    pub walkers: usize,
    /// Whether the keeper renames a directory to and fro all the time meanwhile.
    pub is_beside: bool,
}

/// What is timed.
pub(crate) const SIDES: [Side; 4] = [
    Side {
        name: "one",
        walkers: 1,
        is_beside: false,
    },
    Side {
        name: "four",
        walkers: 4,
        is_beside: false,
    },
    Side {
        name: "one_beside",
        walkers: 1,
        is_beside: true,
    },
    Side {
        name: "four_beside",
        walkers: 4,
        is_beside: true,
    },
];

/// How long the attempts of all walkers took, their outcome, and how many renames were made meanwhile.
#[derive(Clone, Copy)]
pub(crate) struct Rate {
    pub took: Duration,
    pub tally: Tally,
    pub renames: u64,
}

/// The rate of walkers that each make `attempts` attempts; none where the keeper's renames are refused.
pub(crate) fn measure<R: Clock + Threads + Sync>(
    rt: &R,
    alloc: Global,
    keeper: &mut Keeper,
    side: Side,
    aim: Aim<'_>,
    attempts: u64,
) -> io::Result<Option<Rate>> {
    let mut walkers = Vec::new(alloc);
    for _ in 0..side.walkers {
        let Ok(walker) = keeper.walker() else {
            return Err(AllocError.into());
        };
        walkers.push(walker)?;
    }
    if side.is_beside {
        let done = AtomicBool::new(false);
        walk_beside(rt, keeper, walkers, aim, attempts, &done)
    } else {
        Ok(Some(walk_all(rt, walkers, aim, attempts)?))
    }
}

fn walk_all<R: Clock + Threads + Sync>(
    rt: &R,
    walkers: Vec<Walker>,
    aim: Aim<'_>,
    attempts: u64,
) -> io::Result<Rate> {
    let start = Instant::now(rt)?;
    let ended = map_vec(
        rt,
        walkers,
        &|walker: Walker| { walk_often(walker, aim, attempts) },
    )?;
    let took = start.elapsed(rt)?;
    let mut tally = Tally::NONE;
    for (_, one) in &ended {
        tally = tally.and(*one);
    }
    Ok(Rate {
        took,
        tally,
        renames: 0,
    })
}

// The same concurrently with the keeper, which renames until all walkers are done.
fn walk_beside<R: Clock + Threads + Sync>(
    rt: &R,
    keeper: &mut Keeper,
    walkers: Vec<Walker>,
    aim: Aim<'_>,
    attempts: u64,
    done: &AtomicBool,
) -> io::Result<Option<Rate>> {
    let (walked, renames) = join(
        rt,
        || {
            let walked = walk_all(rt, walkers, aim, attempts);
            done.store(true, Ordering::SeqCst);
            walked
        },
        || rename_until(keeper, done),
    );
    let (walked, Some(renames)) = (walked?, renames) else {
        return Ok(None);
    };
    Ok(Some(Rate { renames, ..walked }))
}

// Renames a directory to and fro until `done` is set, and returns the number of renames; none where one is refused.
fn rename_until(keeper: &mut Keeper, done: &AtomicBool) -> Option<u64> {
    let there = Change::Rename(path(b"/empty")?, path(b"/moved")?);
    let back = Change::Rename(path(b"/moved")?, path(b"/empty")?);
    for rounds in 0..u64::MAX {
        if done.load(Ordering::SeqCst) {
            return Some(rounds.saturating_mul(2));
        }
        if keeper.apply(&there).is_err() || keeper.apply(&back).is_err() {
            return None;
        }
    }
    None
}
