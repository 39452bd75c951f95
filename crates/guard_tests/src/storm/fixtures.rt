//! Guards. An allocation that fails is retried once, as `rt try --test --fail-alloc N` makes one fail.
ghost use Rattle.std.specs.Prelude.{◌≡◌, IfOk};

use dentry_cache::Keeper;
use names::NoMemory;
use path_storm::{Gate, Guard, Plan, Row, StormFault, StormReport, storm_with};
use std::alloc::Global;
use std::sync::Wait;
use std::test::Fail;
use std::thread::Threads;
use storm_parts::new_publisher;

/// Returns the keeper of a row with room for the two entries of a storm.
pub(crate) fn keeper(alloc: Global) -> Result<Keeper, Fail> {
    match Keeper::new(alloc, 2) {
        Ok(keeper) => Ok(keeper),
        Err(NoMemory) => Ok(Keeper::new(alloc, 2)?),
    }
}

/// Runs a storm on a guard of this keeper, and closes the guard.
pub(crate) fn storm_on<M: Row + Send + Sync, R: Threads + Wait + Sync, G: Gate + Sync>(
    rt: &R,
    alloc: Global,
    keeper: Keeper,
    plan: &Plan,
    gate: &G,
) -> Result<Result<StormReport, StormFault>, Fail>
    requires { keeper.table ≡ M.table }
{
    let guard: Guard<M> = Guard::new(alloc, keeper, new_publisher(alloc)?);
    let outcome = storm_with(rt, alloc, &guard, plan, gate);
    guard.close(rt);
    Ok(outcome)
}
