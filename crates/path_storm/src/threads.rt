//! The threads of a storm.
ghost use Rattle.std.specs.Prelude.{◌≡◌, All, IfOk, vec_len};
ghost use Rattle.path_storm.specs.Logs.{AreOpened};
ghost use Rattle.path_storm.specs.inner.Threads.{IsOfThreads};

use crate::fault::StormFault;
use crate::gate::Gate;
use crate::log::{PolicyLog, SessionLog, StormLog, TreeLog};
use crate::profiles::Profiles;
use crate::renames::{Renames, rename_all};
use crate::replacements::{Replacements, replace_all};
use crate::worker::{Opens, Worker};
use path_guard::{Guard, Row};
use std::alloc::Global;
use std::sync::Wait;
use std::thread::{PromisedHandle, Scope, Threads, scope, scope_env};

/// What all threads work on.
#[derive(Drop)]
pub(crate) struct Scene<'a, M: Row, G> {
    pub alloc: Global,
    pub guard: &'a Guard<M>,
    pub gate: &'a G,
    pub profiles: &'a Profiles,
    /// What each session opens.
    pub opens: Opens,
    /// The number of renames, and of profiles.
    pub changes: u64,
}

/// A thread that opens.
type Opening = PromisedHandle<Result<SessionLog, StormFault>, Opens>;

/// Runs all threads, and waits for them.
pub(crate) fn blow<M: Row + Send + Sync, R: Threads + Wait + Sync, G: Gate + Sync>(
    rt: &R,
    scene: &Scene<'_, M, G>,
    workers: Vec<Worker<M>>,
) -> Result<StormLog, StormFault>
    ensures { IfOk result (IsOfThreads (vec_len workers) scene.now.opens scene.now.changes) }
{
    // The closure captures the fields: of a captured reference to a type with a lifetime its contract would say nothing.
    let Scene {
        alloc,
        guard,
        gate,
        profiles,
        opens,
        changes,
    } = *scene;
    scope(
        scope_env(),
        rt,
        move |scope| -> Result<StormLog, StormFault>
            ensures { IfOk result (IsOfThreads (vec_len workers) opens changes) }
        {
            let scene = Scene {
                alloc,
                guard,
                gate,
                profiles,
                opens,
                changes,
            };
            blow_in(scope, rt, &scene, workers)
        },
    )
}

fn blow_in<'s, 'e: 's, M: Row + Send + Sync, R: Threads + Wait + Sync, G: Gate + Sync>(
    scope: &Scope<'s, &'e ()>,
    rt: &'e R,
    scene: &Scene<'e, M, G>,
    workers: Vec<Worker<M>>,
) -> Result<StormLog, StormFault>
    ensures { IfOk result (IsOfThreads (vec_len workers) scene.now.opens scene.now.changes) }
{
    let openings = start_workers(scope, rt, scene, workers)?;
    let (alloc, guard, profiles) = (scene.alloc, scene.guard, scene.profiles);
    let renames = Renames {
        times: scene.changes,
    };
    let renamer = scope.spawn_with(renames, move || rename_all(rt, alloc, guard, renames));
    let renamer = renamer.map_err(|_| StormFault::NoThread)?;
    let replacements = Replacements {
        times: scene.changes,
    };
    let publisher = scope.spawn_with(replacements, move || {
        replace_all(rt, alloc, guard, profiles, replacements)
    });
    let publisher = publisher.map_err(|_| StormFault::NoThread)?;
    let sessions = join_all(rt, alloc, openings, scene.opens)?;
    let tree = renamer.join(rt)?;
    let policy = publisher.join(rt)?;
    Ok(StormLog {
        ask: scene.opens.ask,
        tree,
        policy,
        sessions,
    })
}

fn start_workers<'s, 'e: 's, M: Row + Send + Sync, R: Threads + Wait + Sync, G: Gate + Sync>(
    scope: &Scope<'s, &'e ()>,
    rt: &'e R,
    scene: &Scene<'e, M, G>,
    workers: Vec<Worker<M>>,
) -> Result<Vec<Opening>, StormFault>
    ensures len { IfOk result (λ openings. vec_len openings ≡ vec_len workers) }
    ensures each { IfOk result (λ openings. All (λ opening. opening.promise ≡ scene.now.opens) openings.items) }
{
    let mut workers = workers;
    let mut openings = Vec::new(scene.alloc);
    while let Some(worker) = workers.pop() {
        openings.push(start(scope, rt, scene, worker)?)?;
    }
    Ok(openings)
}

fn start<'s, 'e: 's, M: Row + Send + Sync, R: Threads + Wait + Sync, G: Gate + Sync>(
    scope: &Scope<'s, &'e ()>,
    rt: &'e R,
    scene: &Scene<'e, M, G>,
    worker: Worker<M>,
) -> Result<Opening, StormFault>
    ensures { IfOk result (λ opening. opening.promise ≡ scene.now.opens) }
{
    let (alloc, guard, gate, opens) = (scene.alloc, scene.guard, scene.gate, scene.opens);
    let opening = scope.spawn_with(opens, move || {
        worker.open_all(rt, alloc, guard, gate, opens)
    });
    opening.map_err(|_| StormFault::NoThread)
}

/// Waits for the threads that open.
fn join_all(
    rt: &impl Threads,
    alloc: Global,
    openings: Vec<Opening>,
    opens: Opens,
) -> Result<Vec<SessionLog>, StormFault>
    requires { All (λ opening. opening.promise ≡ opens) openings.items }
    ensures { IfOk result (AreOpened opens.ask (vec_len openings) opens.times) }
{
    let mut openings = openings;
    let mut all = Vec::new(alloc);
    while let Some(opening) = openings.pop() {
        all.push(opening.join(rt)?)?;
    }
    Ok(all)
}
