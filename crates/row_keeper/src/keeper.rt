//! The row, and the change that is being made in it.
ghost use Rattle.std.specs.Prelude.{◌≡◌, ◌≢◌, ◌≤◌, [], length, None, IfOk, OnOk, OnErr, IfErr};
ghost use Rattle.std.specs.Option.{option_map};
ghost use Rattle.row_rule.specs.Row.{count_of};
ghost use Rattle.row_rule.specs.Steps.{at_rest};
ghost use Rattle.tree_row.specs.OpeningRow.{opening_row};
ghost use Rattle.row_keeper.specs.KeeperSteps.{IsOpened, MayOpen, Accepts, IsSet, MaySet, IsClosed, MayClose, IsTested};
ghost use Rattle.row_keeper.specs.inner.Planned.{IsPlanned};

use crate::open_change::OpenChange;
use crate::refusal::NotNow;
use directory_tree::{Change, TreeHistory};
use event_machine::StepFault;
use names::{Errno, MOST_CHANGES, NoMemory};
use row_plan::{change_has_one_plan, next_after, plan};
use row_rule::Cell;
use std::alloc::Global;
use std::marker::Model;
use tree_row::{KnownRow, MOST_ENTRIES, RowLook};

/// A row of words and its keeper, in plain memory. Its view is the pair of the row's capacity and what the keeper knows: the
/// changes that were made, the current cells, and the open change with the cells that are left to set.
#[derive(Drop)]
pub struct SteppedKeeper {
    alloc: Global,
    look: RowLook<KnownRow>,
    // The number of the next node, once the open change is closed.
    next: u64,
    // How many changes were made, and which.
    version: u64,
    history: TreeHistory,
    // The change that is being made, and how many of its cells are set.
    opened: Option<OpenChange>,
    set: usize,
}

impl Model for SteppedKeeper {
    ghost use Rattle.std.specs.Prelude.{ℕ};
    ghost use Rattle.row_rule.specs.declared.view.KeeperView.{KeeperView};

    ghost Value = { ℕ × KeeperView };

    ghost use Rattle.row_keeper.specs.inner.Kept.{view_with, IsKept};

    ghost view = { λ k. (k.look.cells.0, view_with k.look.cells.1 k.history.events k.opened k.set) };

    ghost invariant = { λ k. IsKept k.look.cells.0 k.look.cells.1 k.next k.version k.history.events k.opened k.set };
}

impl SteppedKeeper {
    /// The row of a tree that is only the root, with room for `capacity` entries. All its memory is allocated here.
    pub fn new(alloc: Global, capacity: usize) -> Result<SteppedKeeper, NoMemory>
        requires { capacity ≤ MOST_ENTRIES }
        ensures { IfOk result (λ keeper. keeper ≡ (capacity, at_rest [] (opening_row capacity))) }
    {
        let Ok(row) = KnownRow::new(alloc, capacity) else {
            return Err(NoMemory);
        };
        Ok(SteppedKeeper {
            alloc,
            look: RowLook::new(row),
            next: 2,
            version: 0,
            history: TreeHistory::new(),
            opened: None,
            set: 0,
        })
    }

    /// Opens a change: plans its cells, of which none is set yet. Memory is refused only for a change that is accepted.
    pub fn open(&mut self, change: &Change<'_>) -> Result<(), StepFault>
        ensures capacity { self.new.0 ≡ self.old.0 }
        ensures ok { OnOk result (IsOpened self.old.0 self.old.1 change.now self.new.1) }
        ensures same { OnErr result (self.new ≡ self.old) }
        ensures not_now { IfErr result (λ fault. fault ≡ StepFault.NotNow → ¬ (MayOpen self.old.0 self.old.1 change.now)) }
        ensures memory { IfErr result (λ fault. fault ≡ StepFault.NoMemory → Accepts self.old.0 self.old.1 change.now) }
    {
        let Ok(plan) = self.planned(change)? else {
            return Err(StepFault::NotNow);
        };
        self.next = next_after(self.next, change);
        self.opened = Some(OpenChange {
            plan,
            target: self.history.and(change),
        });
        self.set = 0;
        Ok(())
    }

    /// Sets the next cell of the open change.
    pub fn set(&mut self) -> Result<(), NotNow>
        ensures capacity { self.new.0 ≡ self.old.0 }
        ensures ok { OnOk result (IsSet self.old.1 self.new.1) }
        ensures same { OnErr result (self.new ≡ self.old) }
        ensures not_now { OnErr result (¬ (MaySet self.old.1)) }
    {
        let Some(opened) = &self.opened else {
            return Err(NotNow);
        };
        let Some(cell) = opened.plan.get(self.set) else {
            return Err(NotNow);
        };
        self.look.cells.set(cell.place, cell.word);
        self.set += 1;
        Ok(())
    }

    /// Closes the open change once all its cells are set, which makes the change.
    pub fn close(&mut self) -> Result<(), NotNow>
        ensures capacity { self.new.0 ≡ self.old.0 }
        ensures ok { OnOk result (IsClosed self.old.1 self.new.1) }
        ensures same { OnErr result (self.new ≡ self.old) }
        ensures not_now { OnErr result (¬ (MayClose self.old.1)) }
    {
        let Some(opened) = &self.opened else {
            return Err(NotNow);
        };
        if self.set < opened.plan.len() {
            return Err(NotNow);
        }
        self.history = opened.target.again();
        self.opened = None;
        self.version += 1;
        Ok(())
    }

    /// Returns how many cells a change has to set once it is opened, or the error number that refuses it, which may be the one
    /// for too many changes. `NotNow` while another change is open, and `NoMemory` only for a change that is accepted. Changes
    /// nothing.
    pub fn test(&mut self, change: &Change<'_>) -> Result<Result<usize, Errno>, StepFault>
        ensures same { self.new ≡ self.old }
        ensures ok { IfOk result (IsTested self.old.0 self.old.1 change.now) }
        ensures not_now { IfErr result (λ fault. fault ≡ StepFault.NotNow → self.old.1.pending ≢ None) }
        ensures memory { IfErr result (λ fault. fault ≡ StepFault.NoMemory → Accepts self.old.0 self.old.1 change.now) }
    {
        change_has_one_plan();
        match self.planned(change)? {
            Ok(plan) => Ok(Ok(plan.len())),
            Err(errno) => Ok(Err(errno)),
        }
    }

    /// The count: two for each change that was made, and one more while a change is open.
    pub fn count(&self) -> u64
        ensures { result ≡ count_of self.now.1 }
    {
        2 * self.version + u64::from(self.opened.is_some())
    }

    /// How many changes were made.
    pub fn version(&self) -> u64
        ensures { result ≡ length self.now.1.history }
    {
        self.version
    }

    /// How many cells the open change still has to set. `None` while no change is open.
    pub fn cells_left(&self) -> Option<usize>
        ensures { result ≡ option_map (λ pending. length pending.left) self.now.1.pending }
    {
        match &self.opened {
            Some(opened) => Some(opened.plan.len() - self.set),
            None => None,
        }
    }

    /// The greatest number of entries, not counting the root.
    pub fn capacity(&self) -> usize
        ensures capacity { result ≡ self.now.0 }
        ensures small { result ≤ MOST_ENTRIES }
    {
        self.look.cells.capacity()
    }

    /// The current row.
    pub fn row(&self) -> &KnownRow
        ensures { result.now ≡ (self.now.0, self.now.1.cells) }
    {
        &self.look.cells
    }

    /// The changes that were made, only for contracts.
    pub fn history(&self) -> &TreeHistory
        ensures { result.now.events ≡ self.now.1.history }
    {
        &self.history
    }

    // Plans the cells of a change while none is open, or returns the error number that refuses it.
    fn planned(&mut self, change: &Change<'_>) -> Result<Result<Vec<Cell>, Errno>, StepFault>
        ensures same { self.new ≡ self.old }
        ensures ok { IfOk result (IsPlanned self.old.0 self.old.1 change.now) }
        ensures not_now { IfErr result (λ fault. fault ≡ StepFault.NotNow → self.old.1.pending ≢ None) }
        ensures memory { IfErr result (λ fault. fault ≡ StepFault.NoMemory → Accepts self.old.0 self.old.1 change.now) }
    {
        if self.opened.is_some() {
            return Err(StepFault::NotNow);
        }
        if self.version == MOST_CHANGES {
            return Ok(Err(Errno::EOVERFLOW));
        }
        match plan(self.alloc, &mut self.look, self.next, change) {
            Ok(plan) => Ok(Ok(plan)),
            Err(errno) => match errno {
                Errno::ENOMEM => Err(StepFault::NoMemory),
                _ => Ok(Err(errno)),
            },
        }
    }
}
