//! The storm.
ghost use Rattle.std.specs.Prelude.{◌≡◌, ◌*◌, IfOk, vec_len};
ghost use Rattle.path_storm.specs.declared.log.StormLog.{StormLog};
ghost use Rattle.path_storm.specs.Counts.{IsReportOf};
ghost use Rattle.path_storm.specs.Logs.{IsLogOf};

use crate::fault::StormFault;
use crate::gate::Gate;
use crate::log::StormLog;
use crate::plan::{Plan, StormReport};
use crate::profiles::Profiles;
use crate::setup::lay;
use crate::threads::{Scene, blow};
use crate::worker::{Opens, Worker};
use names::{Permission, Perms};
use path_guard::{Guard, Row};
use std::alloc::Global;
use std::sync::Wait;
use std::thread::Threads;

/// Runs a storm on an unused guard whose row has room for two entries or more. Each session opens `/a/f` to read it, in a
/// thread of its own; one thread renames `/a` to `/b` and back, and one replaces the profile of all opens. Once all have ended,
/// each answer is checked against the changes that were actually made.
pub fn storm_with<M: Row + Send + Sync, R: Threads + Wait + Sync, G: Gate + Sync>(
    rt: &R,
    alloc: Global,
    guard: &Guard<M>,
    plan: &Plan,
    gate: &G,
) -> Result<StormReport, StormFault>
    ensures answers { IfOk result (λ report. report.answers ≡ plan.now.sessions * plan.now.opens) }
    ensures told { IfOk result (λ report. (log : StormLog) × IsLogOf plan.now log × IsReportOf log report) }
{
    let log = storm_log(rt, alloc, guard, plan, gate)?;
    log.report(alloc)
}

/// The same, but returns what was done instead of how many answers are right.
pub fn storm_log<M: Row + Send + Sync, R: Threads + Wait + Sync, G: Gate + Sync>(
    rt: &R,
    alloc: Global,
    guard: &Guard<M>,
    plan: &Plan,
    gate: &G,
) -> Result<StormLog, StormFault>
    ensures { IfOk result (IsLogOf plan.now) }
{
    let profiles = Profiles::new(alloc)?;
    let laid = lay(rt, alloc, guard, &profiles)?;
    let workers = workers(rt, alloc, guard, plan.sessions)?;
    let scene = Scene {
        alloc,
        guard,
        gate,
        profiles: &profiles,
        opens: Opens {
            ask: Perms::NONE.with(Permission::Read),
            times: plan.opens,
        },
        changes: plan.changes,
    };
    let StormLog {
        ask,
        tree,
        policy,
        sessions,
    } = blow(rt, &scene, workers)?;
    Ok(StormLog {
        ask,
        tree: laid.tree.and(tree)?,
        policy: laid.policy.and(policy)?,
        sessions,
    })
}

/// Returns the sessions, before the first of them opens.
fn workers<M: Row>(
    rt: &impl Wait,
    alloc: Global,
    guard: &Guard<M>,
    sessions: u32,
) -> Result<Vec<Worker<M>>, StormFault>
    ensures { IfOk result (λ workers. vec_len workers ≡ sessions) }
{
    let mut workers = Vec::new(alloc);
    for number in 0..sessions {
        workers.push(Worker::new(rt, guard, number)?)?;
    }
    Ok(workers)
}
