//! Walkers concurrent with a keeper, and what they found compared with what they should have found.
ghost use Rattle.std.specs.Prelude.{◌≡◌};

use super::ours::RowKeeper;
use super::plan::Plan;
use super::replay::differing;
use super::walker::{Walked, Work, walk_all};
use dentry_cache::Keeper;
use path_guard::Row;
use std::alloc::{AllocError, Global};
use std::marker::Brand;
use std::sync::Arc;
use std::thread::{JoinHandle, Threads, spawn};
use storm_parts::{DrawnChange, ROUNDS, Random, Rounds, draw_script, share};

// The room for entries: little, so that trees are full at times, and walks are short.
const CAPACITY: usize = 40;

/// How many walks and changes there were.
#[derive(Clone, Copy)]
pub(crate) struct Outcome {
    /// Walks that ended well.
    pub ok: u64,
    /// Walks that were concurrent with a change.
    pub busy: u64,
    /// Walks that ended well and didn't find what is there, or didn't see all changes after the last.
    pub differing: u64,
    /// Changes that were made.
    pub made: usize,
}

/// Makes the changes concurrently with the walkers, and compares.
pub(crate) fn storm<R: Threads>(rt: &R, alloc: Global, plan: &Plan) -> Result<Outcome, AllocError> {
    let Ok(keeper) = Keeper::new(alloc, CAPACITY) else {
        return Err(AllocError);
    };
    storm_over::<Brand, R>(rt, alloc, plan, keeper)
}

fn storm_over<J: Row + Send + Sync + 'static, R: Threads>(
    rt: &R,
    alloc: Global,
    plan: &Plan,
    keeper: Keeper,
) -> Result<Outcome, AllocError>
    requires { keeper.table ≡ J.table }
{
    let mut keeper: RowKeeper<J> = RowKeeper::new(keeper);
    let script = draw_script(alloc, CAPACITY, plan.changes)?;
    // Those of the walkers and of the keeper.
    let rounds = Arc::new(alloc, Rounds::new(plan.walkers.saturating_add(1)))?;
    let threads = start_walkers(rt, alloc, plan, &mut keeper, &rounds)?;
    let log = change_all(alloc, &script, &mut keeper, &rounds)?;
    let mut outcome = Outcome {
        ok: 0,
        busy: 0,
        differing: 0,
        made: log.len(),
    };
    for thread in threads {
        let walked = thread.join(rt)?;
        count(alloc, &mut outcome, &mut keeper, &log, walked)?;
    }
    Ok(outcome)
}

fn start_walkers<J: Row + Send + Sync + 'static, R: Threads>(
    rt: &R,
    alloc: Global,
    plan: &Plan,
    keeper: &mut RowKeeper<J>,
    rounds: &Arc<Rounds>,
) -> Result<Vec<JoinHandle<Result<Walked<J>, AllocError>>>, AllocError> {
    let mut threads = Vec::new(alloc);
    for k in 0..plan.walkers {
        let Ok(walker) = keeper.walker() else {
            return Err(AllocError);
        };
        let work = Work {
            walker,
            random: Random::new(k as u64),
            attempts: plan.attempts,
            rounds: Arc::try_clone(rounds)?,
        };
        threads.push(spawn(rt, move || walk_all(alloc, work))?)?;
    }
    Ok(threads)
}

// Tries the changes, and returns those that were made.
fn change_all<J: Row>(
    alloc: Global,
    script: &[DrawnChange],
    keeper: &mut RowKeeper<J>,
    rounds: &Rounds,
) -> Result<Vec<DrawnChange>, AllocError> {
    let mut log = Vec::new(alloc);
    let mut left = script;
    for round in 0..ROUNDS {
        rounds.begin(round);
        let (now, later) = left.split_at(share(script.len(), round).min(left.len()));
        if change_round(keeper, now, &mut log).is_err() {
            rounds.give_up();
            return Err(AllocError);
        }
        left = later;
    }
    Ok(log)
}

fn change_round<J: Row>(
    keeper: &mut RowKeeper<J>,
    script: &[DrawnChange],
    log: &mut Vec<DrawnChange>,
) -> Result<(), AllocError> {
    for drawn in script {
        let Some(change) = drawn.change() else {
            continue;
        };
        if keeper.apply(&change).is_ok() {
            log.push(*drawn)?;
        }
    }
    Ok(())
}

// Counts what a walker returned, and has it meet the keeper.
fn count<J: Row>(
    alloc: Global,
    outcome: &mut Outcome,
    keeper: &mut RowKeeper<J>,
    log: &[DrawnChange],
    walked: Walked<J>,
) -> Result<(), AllocError> {
    let Walked { walker, answers } = walked;
    outcome.ok = outcome.ok.saturating_add(answers.ok.len() as u64);
    outcome.busy = outcome.busy.saturating_add(answers.busy);
    let differing = differing(alloc, CAPACITY, log, answers.ok.as_slice())?;
    outcome.differing = outcome.differing.saturating_add(differing);
    if !keeper.meet(walker) {
        outcome.differing = outcome.differing.saturating_add(1);
    }
    Ok(())
}
