//! Keepers, walkers and walks. An allocation that fails is retried once, as `rt try --test --fail-alloc N` makes one fail.
ghost use Rattle.std.specs.Prelude.{◌≡◌, ◌≤◌, IfOk};

use crate::lines::change;
use dentry_cache::{Attempt, Busy, Keeper, Walker};
use directory_tree::{Change, Last};
use names::{Errno, NoMemory};
use path_lookup::{Look, NAME_ROOM, Scratch, WalkFault};
use std::alloc::Global;
use std::test::Fail;
use test_parts::path;
use tree_row::{MOST_ENTRIES, RowLook, reach};

/// Returns the keeper of a row of the root alone, with room for `capacity` entries.
pub(crate) fn keeper(alloc: Global, capacity: usize) -> Result<Keeper, Fail>
    requires { capacity ≤ MOST_ENTRIES }
{
    match Keeper::new(alloc, capacity) {
        Ok(keeper) => Ok(keeper),
        Err(NoMemory) => Ok(Keeper::new(alloc, capacity)?),
    }
}

/// Returns a keeper that has made these changes.
pub(crate) fn keeper_after(alloc: Global, capacity: usize, lines: &[&str]) -> Result<Keeper, Fail>
    requires { capacity ≤ MOST_ENTRIES }
{
    let mut keeper = keeper(alloc, capacity)?;
    for line in lines {
        apply(&mut keeper, &change(line)?)
            .ok()
            .ok_or("a change that is refused")?;
    }
    Ok(keeper)
}

/// Makes a change.
pub(crate) fn apply(keeper: &mut Keeper, change: &Change<'_>) -> Result<u64, Errno>
    ensures { keeper.new.table ≡ keeper.old.table }
{
    match keeper.apply(change) {
        Err(Errno::ENOMEM) => keeper.apply(change),
        answer => answer,
    }
}

pub(crate) fn walker(keeper: &mut Keeper) -> Result<Walker, Fail>
    ensures same { keeper.new ≡ keeper.old }
    ensures walker { IfOk result (λ walker. walker.table ≡ keeper.old.table) }
{
    match keeper.walker() {
        Ok(walker) => Ok(walker),
        Err(_) => match keeper.walker() {
            Ok(walker) => Ok(walker),
            Err(_) => Err(Fail::from("a seat")),
        },
    }
}

/// Writes the name of what a path leads to into `room`, and returns its length.
pub(crate) fn name<L: Look>(
    look: &mut L,
    text: &[u8],
    room: &mut [u8; NAME_ROOM],
) -> Result<Result<usize, WalkFault>, Fail> {
    match reach(look, &path(text)?, Last::Follow, &mut Scratch::new(), room) {
        Ok(reached) => Ok(Ok(reached.length)),
        Err(fault) => Ok(Err(fault)),
    }
}

/// A walk that has ended.
#[derive(Drop)]
pub(crate) struct Walked {
    pub walker: Walker,
    /// The length of the name of what was found.
    pub length: Result<usize, WalkFault>,
    pub end: Result<u64, Busy>,
}

/// Continues a walk along a path, and ends it.
pub(crate) fn walk_on(
    attempt: Attempt,
    text: &[u8],
    room: &mut [u8; NAME_ROOM],
) -> Result<Walked, Fail> {
    let mut look = RowLook::new(attempt);
    let length = name(&mut look, text, room)?;
    let (walker, end) = look.into_cells().end();
    Ok(Walked {
        walker,
        length,
        end,
    })
}

/// Walks along a path.
pub(crate) fn walk(
    walker: Walker,
    text: &[u8],
    room: &mut [u8; NAME_ROOM],
) -> Result<Walked, Fail> {
    walk_on(walker.begin(), text, room)
}
