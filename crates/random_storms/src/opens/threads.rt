//! The threads of a storm.
use super::answers::Answered;
use super::changes::change_all;
use super::fault::Fault;
use super::notes::Noted;
use super::plan::Plan;
use super::publication::publish_all;
use super::scene::Scene;
use super::sessions::Opener;
use matcher::PolicyChange;
use path_guard::Row;
use std::alloc::Global;
use std::sync::Wait;
use std::thread::{JoinHandle, Scope, Threads, scope, scope_env};
use storm_parts::DrawnChange;

// How many threads change the tree, and how many the policy.
const CHANGERS: u32 = 2;

/// How many threads a storm has.
pub(crate) fn threads_of(plan: &Plan) -> usize {
    plan.sessions as usize + 2 * CHANGERS as usize
}

/// What all threads return.
#[derive(Drop)]
pub(crate) struct Brought {
    pub answers: Vec<Vec<Answered>>,
    pub changes: Vec<Vec<Noted<DrawnChange>>>,
    pub policy: Vec<Vec<Noted<PolicyChange>>>,
}

/// A thread that works, and what it returns.
type Working<T> = JoinHandle<Result<Vec<T>, Fault>>;

/// Runs all threads, and waits for them.
pub(crate) fn blow<M: Row + Send + Sync, R: Threads + Wait + Sync>(
    rt: &R,
    scene: &Scene<'_, M>,
    openers: Vec<Opener<M>>,
) -> Result<Brought, Fault> {
    scope(scope_env(), rt, move |scope| -> Result<Brought, Fault> {
        let brought = blow_in(scope, rt, scene, openers);
        // Where a thread could not be started, the others don't wait for it.
        scene.rounds.give_up();
        brought
    })
}

fn blow_in<'s, 'e: 's, M: Row + Send + Sync, R: Threads + Wait + Sync>(
    scope: &Scope<'s, &'e ()>,
    rt: &'e R,
    scene: &'e Scene<'e, M>,
    openers: Vec<Opener<M>>,
) -> Result<Brought, Fault> {
    let openings = start_openers(scope, rt, scene, openers)?;
    let changings = start_changers(scope, rt, scene)?;
    let publishings = start_publishers(scope, rt, scene)?;
    Ok(Brought {
        answers: join_all(rt, scene.alloc, openings)?,
        changes: join_all(rt, scene.alloc, changings)?,
        policy: join_all(rt, scene.alloc, publishings)?,
    })
}

fn start_openers<'s, 'e: 's, M: Row + Send + Sync, R: Threads + Wait + Sync>(
    scope: &Scope<'s, &'e ()>,
    rt: &'e R,
    scene: &'e Scene<'e, M>,
    openers: Vec<Opener<M>>,
) -> Result<Vec<Working<Answered>>, Fault> {
    let mut threads = Vec::new(scene.alloc);
    for opener in openers {
        let thread = scope.spawn(move || opener.open_all(rt, scene));
        threads.push(thread.map_err(|_| Fault::NoThread)?)?;
    }
    Ok(threads)
}

fn start_changers<'s, 'e: 's, M: Row + Send + Sync, R: Threads + Wait + Sync>(
    scope: &Scope<'s, &'e ()>,
    rt: &'e R,
    scene: &'e Scene<'e, M>,
) -> Result<Vec<Working<Noted<DrawnChange>>>, Fault> {
    let mut threads = Vec::new(scene.alloc);
    for number in 0..CHANGERS {
        let random = scene.random(100 + number);
        let changes = part(scene.plan.changes, number);
        let thread = scope.spawn(move || change_all(rt, scene, random, changes));
        threads.push(thread.map_err(|_| Fault::NoThread)?)?;
    }
    Ok(threads)
}

fn start_publishers<'s, 'e: 's, M: Row + Send + Sync, R: Threads + Wait + Sync>(
    scope: &Scope<'s, &'e ()>,
    rt: &'e R,
    scene: &'e Scene<'e, M>,
) -> Result<Vec<Working<Noted<PolicyChange>>>, Fault> {
    let mut threads = Vec::new(scene.alloc);
    for number in 0..CHANGERS {
        let random = scene.random(200 + number);
        let changes = part(scene.plan.changes, number);
        let thread = scope.spawn(move || publish_all(rt, scene, random, changes));
        threads.push(thread.map_err(|_| Fault::NoThread)?)?;
    }
    Ok(threads)
}

/// How many of the changes the thread of this number makes.
fn part(changes: usize, number: u32) -> usize {
    changes.saturating_add(number as usize) / CHANGERS as usize
}

/// Waits for the threads.
fn join_all<T: Drop>(
    rt: &impl Threads,
    alloc: Global,
    threads: Vec<Working<T>>,
) -> Result<Vec<Vec<T>>, Fault> {
    let mut all = Vec::new(alloc);
    for thread in threads {
        all.push(thread.join(rt)?)?;
    }
    Ok(all)
}
