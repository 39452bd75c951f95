//! Sessions that open concurrently with changes of the tree and of the policy.
ghost use Rattle.std.specs.Prelude.{◌≡◌};

use super::fault::Fault;
use super::notes::in_order;
use super::plan::Plan;
use super::scene::Scene;
use super::sessions::Opener;
use super::tally::{Counts, tally};
use super::threads::{Brought, blow, threads_of};
use dentry_cache::Keeper;
use path_guard::{Guard, Row};
use profile_registry::Publisher;
use std::alloc::Global;
use std::marker::Brand;
use std::sync::Wait;
use std::thread::Threads;
use storm_parts::{Question, Random, Rounds, draw_profiles, draw_questions};

// The room for entries: little, so that trees are full at times, and opens often find something.
const CAPACITY: usize = 40;

/// The outcome of a storm.
#[derive(Clone, Copy)]
pub(crate) struct Outcome {
    pub counts: Counts,
    /// How many changes of the tree were made.
    pub changes: usize,
    /// How many changes of the policy were made.
    pub policy_changes: usize,
}

/// Runs a storm on a guard of its own.
pub(crate) fn storm<R: Threads + Wait + Sync>(
    rt: &R,
    alloc: Global,
    plan: &Plan,
) -> Result<Outcome, Fault> {
    let keeper = Keeper::new(alloc, CAPACITY)?;
    let publisher = Publisher::new(alloc)?;
    storm_over::<Brand, R>(rt, alloc, plan, keeper, publisher)
}

fn storm_over<M: Row + Send + Sync, R: Threads + Wait + Sync>(
    rt: &R,
    alloc: Global,
    plan: &Plan,
    keeper: Keeper,
    publisher: Publisher,
) -> Result<Outcome, Fault>
    requires { keeper.table ≡ M.table }
{
    let guard: Guard<M> = Guard::new(alloc, keeper, publisher);
    let outcome = storm_on(rt, alloc, plan, &guard);
    guard.close(rt);
    outcome
}

fn storm_on<M: Row + Send + Sync, R: Threads + Wait + Sync>(
    rt: &R,
    alloc: Global,
    plan: &Plan,
    guard: &Guard<M>,
) -> Result<Outcome, Fault> {
    let mut random = Random::new(plan.seed);
    let questions = draw_questions(alloc, &mut random)?;
    let profiles = draw_profiles(alloc, &mut random)?;
    let rounds = Rounds::new(threads_of(plan));
    let scene = Scene {
        alloc,
        guard,
        rounds: &rounds,
        questions: &questions,
        profiles: &profiles,
        plan: *plan,
    };
    let openers = openers(rt, &scene)?;
    let brought = blow(rt, &scene, openers)?;
    judge(alloc, plan, &questions, brought)
}

/// The sessions, before the first of them opens.
fn openers<M: Row>(rt: &impl Wait, scene: &Scene<'_, M>) -> Result<Vec<Opener<M>>, Fault> {
    let mut openers = Vec::new(scene.alloc);
    for number in 0..scene.plan.sessions {
        let random = scene.random(number + 1);
        openers.push(Opener::new(rt, scene.alloc, scene.guard, random)?)?;
    }
    Ok(openers)
}

/// Checks the answers against what was changed, without the change that is to be left out.
fn judge(
    alloc: Global,
    plan: &Plan,
    questions: &[Question],
    brought: Brought,
) -> Result<Outcome, Fault> {
    let mut changes = in_order(alloc, brought.changes)?;
    let policy = in_order(alloc, brought.policy)?;
    let made = changes.len();
    if let Some(number) = plan.left_out
        && number < changes.len()
    {
        changes.remove(number);
    }
    Ok(Outcome {
        counts: tally(alloc, questions, &changes, &policy, &brought.answers)?,
        changes: made,
        policy_changes: policy.len(),
    })
}
