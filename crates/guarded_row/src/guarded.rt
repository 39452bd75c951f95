//! The lock, and what waits for it.
ghost use Rattle.std.specs.Prelude.{◌≡◌, IfOk};
ghost use Rattle.row_rule.specs.Steps.{newcomer};

use crate::row::{Row, RowKeeper};
use dentry_cache::{Keeper, NoSeat, Walker};
use directory_tree::Change;
use names::Errno;
use std::sync::{Mutex, MutexGuard, Wait};

/// The keeper of a row under a lock, which threads share. `M` names the row.
#[derive(Drop)]
pub struct GuardedRow<M: Row> {
    keeper: Mutex<RowKeeper<M>>,
}

impl<M: Row> GuardedRow<M> {
    /// This keeper, the one that `M` names, under a lock.
    pub fn new(keeper: Keeper) -> GuardedRow<M>
        requires { keeper.table ≡ M.table }
    {
        GuardedRow {
            keeper: Mutex::new(RowKeeper::new(keeper)),
        }
    }

    /// Waits for the lock and takes it. Until it is given back by `MutexGuard::unlock`, all else that takes it waits: no change is
    /// made, and an open goes on where it needs no lock.
    pub fn lock(&self, rt: &impl Wait) -> MutexGuard<'_, RowKeeper<M>> {
        self.keeper.lock(rt)
    }

    /// A walker of the row, which may go to another thread. It waits for the lock.
    pub fn walker(&self, rt: &impl Wait) -> Result<Walker, NoSeat>
        ensures { IfOk result (λ walker. (walker.table ≡ M.table) × (walker.view ≡ newcomer)) }
    {
        let mut keeper = self.lock(rt);
        let walker = keeper.walker();
        MutexGuard::unlock(keeper);
        walker
    }

    /// Makes a change of the tree, and returns the version that it makes, or why not; then nothing was changed. It waits for the
    /// lock.
    pub fn change(&self, rt: &impl Wait, change: &Change<'_>) -> Result<u64, Errno> {
        let mut keeper = self.lock(rt);
        let version = keeper.change(change);
        MutexGuard::unlock(keeper);
        version
    }
}
