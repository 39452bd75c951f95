//! The keeper, which changes the row.
ghost use Rattle.std.specs.Prelude.{◌≡◌, ◌≤◌, [], length, IfOk, OnOk, IfErr, ◌*◌};
ghost use mathlib.Core.List.{IsPrefix};
ghost use Rattle.tree_row.specs.OpeningRow.{opening_row};
ghost use Rattle.row_rule.specs.Steps.{newcomer};
ghost use Rattle.dentry_cache.specs.Models.{Makes, IsStopped, Accepts, Refuses, Hinders};
ghost use Rattle.dentry_cache.specs.Walks.{met_at};
ghost use Rattle.dentry_cache.specs.inner.Knowledge.{IsPlanned};

use crate::kept_row::KeptRow;
use crate::refusal::NoSeat;
use crate::stopped::StoppedKeeper;
use crate::walker::Walker;
use change_checks::check_change;
use directory_tree::Change;
use names::{Errno, NoMemory};
use path_lookup::WalkFault;
use row_plan::plan;
use row_rule::Cell;
use std::alloc::Global;
use std::marker::Model;
use tree_row::{Cells, MOST_ENTRIES, RowLook};

/// The keeper's view of the tree, by its own reads of the row.
pub type KeeperLook = RowLook<KeptRow>;

/// The only one that may change the row. Contracts see it as its table, the row's capacity, the changes made, and the cells.
#[derive(Drop)]
pub struct Keeper {
    alloc: Global,
    pub(crate) look: KeeperLook,
}

impl Model for Keeper {
    ghost use Rattle.dentry_cache.specs.Models.{Held};

    ghost Value = { Held };

    ghost view = { λ k. k.look.cells };
}

impl Keeper {
    /// Returns the keeper of a row of the root alone, with room for `capacity` entries. All memory of the row is allocated here.
    pub fn new(alloc: Global, capacity: usize) -> Result<Keeper, NoMemory>
        requires { capacity ≤ MOST_ENTRIES }
        ensures { IfOk result (λ keeper. (keeper.capacity ≡ capacity) × (keeper.history ≡ []) × (keeper.cells ≡ opening_row capacity)) }
    {
        Ok(Keeper {
            alloc,
            look: RowLook::new(KeptRow::new(alloc, capacity)?),
        })
    }

    /// Returns the number of changes made.
    pub fn version(&self) -> u64
        ensures version { result ≡ length self.now.history }
        ensures count { self.now.count ≡ 2 * result }
    {
        self.look.cells.version()
    }

    /// Returns the maximum number of entries, besides the root.
    pub fn capacity(&self) -> usize
        ensures capacity { result ≡ self.now.capacity }
        ensures small { result ≤ MOST_ENTRIES }
    {
        self.look.cells.capacity()
    }

    /// Makes a change, and returns the number of changes made so far. If it is refused, the errno says why, and nothing was
    /// changed; `ENOMEM` comes after all other refusals.
    pub fn apply(&mut self, change: &Change<'_>) -> Result<u64, Errno>
        ensures ok { IfOk result (λ version. Makes self.old change.now self.new × (version ≡ length self.new.history)) }
        ensures same { IfErr result (λ _. self.new ≡ self.old) }
        ensures err { IfErr result (Hinders self.old change.now) }
    {
        let plan = self.planned(change)?;
        Ok(self.look.cells.make(change, &plan))
    }

    /// Opens a change, sets the first `set` cells of its plan, or all if there are fewer, and stops there permanently, like a keeper
    /// whose thread ends in the middle of a change. If the change is refused, the keeper is returned as it was. A walk that reads
    /// the count after this is busy, as the tests show; its walker has to be made before.
    pub fn stop_amid(
        mut self,
        change: &Change<'_>,
        set: usize,
    ) -> Result<StoppedKeeper, (Keeper, Errno)>
        ensures ok { IfOk result (IsStopped self change.now set) }
        ensures err { IfErr result (λ refused. (refused.0 ≡ self) × Hinders self change.now refused.1) }
    {
        match self.planned(change) {
            Ok(plan) => Ok(self.look.into_cells().stop_amid(change, &plan, set)),
            Err(errno) => Err((self, errno)),
        }
    }

    /// Whether a change would be made now, or the errno by which it would be refused. Changes nothing, and allocates no memory.
    pub fn test(&mut self, change: &Change<'_>) -> Result<(), Errno>
        ensures same { self.new ≡ self.old }
        ensures ok { OnOk result (Accepts self.old change.now) }
        ensures err { IfErr result (Refuses self.old change.now) }
    {
        self.look.cells.next()?;
        match check_change(&mut self.look, change) {
            Ok(_) => Ok(()),
            Err(fault) => match fault {
                WalkFault::Refused(errno) => Err(errno),
                // The keeper's own row always encodes a tree, and all of it is known.
                WalkFault::Torn => unreachable!(),
            },
        }
    }

    // Returns the cells of a change, or the errno by which it is refused.
    fn planned(&mut self, change: &Change<'_>) -> Result<Vec<Cell>, Errno>
        ensures same { self.new ≡ self.old }
        ensures ok { IfOk result (λ plan. IsPlanned self.old change.now plan.items) }
        ensures err { IfErr result (Hinders self.old change.now) }
    {
        let next = self.look.cells.next()?;
        match plan(self.alloc, &mut self.look, next, change) {
            Ok(plan) => Ok(plan),
            Err(errno) => Err(errno),
        }
    }

    /// Returns a new walker, which has seen nothing and may go to another thread.
    pub fn walker(&mut self) -> Result<Walker, NoSeat>
        ensures same { self.new ≡ self.old }
        ensures walker { IfOk result (λ walker. (walker.table ≡ self.old.table) × (walker.capacity ≡ self.old.capacity)
            × (walker.view ≡ newcomer)) }
    {
        self.look.cells.walker()
    }

    /// Lets a walker of this row meet the keeper: the changes that it had seen were the first ones of the history, and now it has
    /// seen them all.
    pub fn meet(&mut self, walker: &mut Walker)
        requires { walker.old.table ≡ self.old.table }
        ensures same { (self.new ≡ self.old) × (walker.new.table ≡ walker.old.table) × (walker.new.capacity ≡ walker.old.capacity) }
        ensures began { IsPrefix walker.old.view.seen self.old.history }
        ensures seen { walker.new.view ≡ met_at self.old.history }
    {
        self.look.cells.meet(walker);
    }
}
