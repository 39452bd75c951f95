//! The row of a storm: its keeper, and walkers that stay its walkers when they go to other threads and come back.
ghost use Rattle.std.specs.Prelude.{◌≡◌, ◌≤◌, IfOk};

use super::reach::{Reached, Rooms, reach};
use dentry_cache::{Attempt, Busy, Keeper, NoSeat, Walker};
use directory_tree::Change;
use names::{Errno, LONGEST_PATH, Path};
use path_guard::Row;
use path_lookup::WalkFault;
use std::marker::PhantomData;
use tree_row::RowLook;

/// The keeper of that row.
#[derive(Drop)]
pub(crate) struct RowKeeper<J: Row> {
    keeper: Keeper,
    of: PhantomData<J>,
    ghost ours: { keeper.table ≡ J.table },
}

impl<J: Row> RowKeeper<J> {
    pub(crate) fn new(keeper: Keeper) -> RowKeeper<J>
        requires { keeper.table ≡ J.table }
    {
        RowKeeper {
            keeper,
            of: PhantomData,
        }
    }

    pub(crate) fn apply(&mut self, change: &Change<'_>) -> Result<u64, Errno> {
        self.keeper.apply(change)
    }

    pub(crate) fn walker(&mut self) -> Result<RowWalker<J>, NoSeat> {
        match self.keeper.walker() {
            Ok(walker) => Ok(RowWalker {
                walker,
                of: PhantomData,
            }),
            Err(_) => Err(NoSeat),
        }
    }

    /// The walker meets the keeper, and then walks once more. Returns whether that walk has seen all changes.
    pub(crate) fn meet(&mut self, walker: RowWalker<J>) -> bool {
        let RowWalker { mut walker, of: _ } = walker;
        self.keeper.meet(&mut walker);
        walker.begin().end().1 == Ok(self.keeper.version())
    }
}

/// A walker of that row.
#[derive(Drop)]
pub(crate) struct RowWalker<J: Row> {
    walker: Walker,
    of: PhantomData<J>,
    ghost ours: { walker.table ≡ J.table },
}

/// An attempt that has ended.
#[derive(Drop)]
pub(crate) struct Attempted<J: Row> {
    pub walker: RowWalker<J>,
    /// What was found; its name is in the rooms.
    pub reached: Result<Reached, WalkFault>,
    /// The version that it is of, or that it was busy.
    pub end: Result<u64, Busy>,
}

impl<J: Row> RowWalker<J> {
    /// Walks along a path, and names what is there.
    pub(crate) fn attempt(self, path: &Path<'_>, rooms: &mut Rooms) -> Attempted<J>
        ensures { IfOk result.reached (λ reached. reached.length ≤ LONGEST_PATH) }
    {
        let RowWalker { walker, of: _ } = self;
        let mut look: RowLook<Attempt> = RowLook::new(walker.begin());
        let reached = reach(&mut look, path, rooms);
        let (walker, end) = look.into_cells().end();
        Attempted {
            walker: RowWalker {
                walker,
                of: PhantomData,
            },
            reached,
            end,
        }
    }
}
