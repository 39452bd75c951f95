//! Changes of the tree.
ghost use Rattle.std.specs.Prelude.{◌≡◌, ◌<◌, ◌≤◌, [], IfOk, IfErr, OnOk, Ok, None, is_some, true, replicate};
ghost use Rattle.event_machine.specs.Lawful.{IsLawful};
ghost use Rattle.event_machine.specs.Machine.Event.{set_cell};
ghost use Rattle.event_machine.specs.Runs.{Runs};
ghost use Rattle.trace_script.specs.LineValues.{change_words};
ghost use Rattle.trace_script.specs.declared.stop.Stop.TheVariants.{Memory};
ghost use Rattle.trace_steps.specs.StepLines.{TriesNow, Tries, IsMade, IsOpened, ClosesOpen, Closes, TakesUpTo};
ghost use Rattle.trace_steps.specs.inner.Actions.{HasLine, IsDone, IsTriedOut, AreSet};

use crate::calls::{none_taken_line, not_now_line};
use directory_tree::Change;
use event_machine::{Event, EventMachine, StepFault};
use names::Errno;
use std::alloc::Global;
use trace_script::{ChangeWords, Stop, change_of, errno_line, version_line};

/// Makes a change, with all its cells, and reports the version that it makes.
pub(crate) fn change_line<M: EventMachine>(
    alloc: Global,
    machine: &mut M,
    words: ChangeWords<'_>,
) -> Result<Vec<u8>, Stop>
    ensures { HasLine (λ lines. TriesNow (M.machine machine.old) (change_words words.entry) (IsMade (M.machine machine.old)) lines
        (M.machine machine.new)) result }
{
    if machine.has_open_change() {
        return not_now_line(alloc);
    }
    match change_of(words) {
        Ok(change) => checked_change_line(alloc, machine, &change),
        Err(errno) => errno_line(alloc, errno),
    }
}

/// Makes a change whose paths are checked, while no other is open.
fn checked_change_line<M: EventMachine>(
    alloc: Global,
    machine: &mut M,
    change: &Change<'_>,
) -> Result<Vec<u8>, Stop>
    requires { (M.machine machine.old).keeper.pending ≡ None }
    ensures { HasLine (λ lines. Tries (M.machine machine.old) (Ok change.now) (IsMade (M.machine machine.old)) lines
        (M.machine machine.new)) result }
{
    match open_change(machine, change)? {
        Ok(()) => close_open_change(alloc, machine),
        Err(errno) => errno_line(alloc, errno),
    }
}

/// Opens a change. Nothing is printed, unless it is refused.
pub(crate) fn keep<M: EventMachine>(
    alloc: Global,
    machine: &mut M,
    words: ChangeWords<'_>,
) -> Result<Option<Vec<u8>>, Stop>
    ensures { IsDone (λ lines. TriesNow (M.machine machine.old) (change_words words.entry) (IsOpened (M.machine machine.old)) lines
        (M.machine machine.new)) result }
{
    if machine.has_open_change() {
        return Ok(Some(not_now_line(alloc)?));
    }
    match change_of(words) {
        Ok(change) => keep_checked(alloc, machine, &change),
        Err(errno) => Ok(Some(errno_line(alloc, errno)?)),
    }
}

/// Opens a change whose paths are checked, while no other is open.
fn keep_checked<M: EventMachine>(
    alloc: Global,
    machine: &mut M,
    change: &Change<'_>,
) -> Result<Option<Vec<u8>>, Stop>
    requires { (M.machine machine.old).keeper.pending ≡ None }
    ensures { IsDone (λ lines. Tries (M.machine machine.old) (Ok change.now) (IsOpened (M.machine machine.old)) lines
        (M.machine machine.new)) result }
{
    match open_change(machine, change)? {
        Ok(()) => Ok(None),
        Err(errno) => Ok(Some(errno_line(alloc, errno)?)),
    }
}

/// Opens a change while no other is open, or returns the number by which it is refused.
fn open_change<M: EventMachine>(
    machine: &mut M,
    change: &Change<'_>,
) -> Result<Result<(), Errno>, Stop>
    requires { (M.machine machine.old).keeper.pending ≡ None }
    ensures ok { IfOk result (IsTriedOut (M.machine machine.old) change.now (M.machine machine.new)) }
    ensures err { IfErr result (λ stop. stop ≡ Memory) }
{
    match machine.test(change) {
        Ok(Ok(_)) => {}
        Ok(Err(errno)) => return Ok(Err(errno)),
        // No other change is open.
        Err(StepFault::NotNow) => unreachable!(),
        Err(StepFault::NoMemory) => return Err(Stop::Memory),
    }
    match machine.step(&Event::Open(change)) {
        Ok(_) => Ok(Ok(())),
        // The test found it legal.
        Err(StepFault::NotNow) => unreachable!(),
        Err(StepFault::NoMemory) => Err(Stop::Memory),
    }
}

/// Sets at most `most` cells of the open change.
pub(crate) fn set_cells<M: EventMachine>(
    alloc: Global,
    machine: &mut M,
    most: usize,
) -> Result<Option<Vec<u8>>, Stop>
    ensures { IsDone (λ lines. TakesUpTo (M.machine machine.old) most set_cell lines (M.machine machine.new)) result }
{
    let count = set_up_to(machine, most)?;
    none_taken_line(alloc, most, count)
}

/// Sets at most `most` cells, and returns how many were set.
fn set_up_to<M: EventMachine>(machine: &mut M, most: usize) -> Result<usize, Stop>
    ensures few { IfOk result (λ count. count ≤ most) }
    ensures runs { IfOk result (λ count. Runs (M.machine machine.old) (replicate count set_cell) [] (M.machine machine.new)) }
    ensures all { IfOk result (λ count. count < most → ¬ (IsLawful (M.machine machine.new) set_cell)) }
    ensures err { IfErr result (λ stop. stop ≡ Memory) }
{
    for set in 0..most {
        match machine.step(&Event::CellSet) {
            Ok(_) => {}
            Err(StepFault::NotNow) => return Ok(set),
            Err(StepFault::NoMemory) => return Err(Stop::Memory),
        }
    }
    Ok(most)
}

/// Does the rest of the open change, and reports the version that it makes.
pub(crate) fn close_line<M: EventMachine>(alloc: Global, machine: &mut M) -> Result<Vec<u8>, Stop>
    ensures { HasLine (λ lines. Closes (M.machine machine.old) lines (M.machine machine.new)) result }
{
    if machine.has_open_change() {
        close_open_change(alloc, machine)
    } else {
        not_now_line(alloc)
    }
}

/// Sets the remaining cells of the open change, closes it, and reports the version that it makes.
fn close_open_change<M: EventMachine>(alloc: Global, machine: &mut M) -> Result<Vec<u8>, Stop>
    requires { is_some (M.machine machine.old).keeper.pending ≡ true }
    ensures { HasLine (λ lines. ClosesOpen (M.machine machine.old) lines (M.machine machine.new)) result }
{
    set_all_cells(machine)?;
    match machine.step(&Event::Close) {
        Ok(_) => version_line(alloc, machine.tree_version()),
        // A change is open, and no cell of it is left.
        Err(StepFault::NotNow) => unreachable!(),
        Err(StepFault::NoMemory) => Err(Stop::Memory),
    }
}

/// Sets the remaining cells of the open change, if there is one.
fn set_all_cells<M: EventMachine>(machine: &mut M) -> Result<(), Stop>
    ensures runs { OnOk result (AreSet (M.machine machine.old) (M.machine machine.new)) }
    ensures all { OnOk result (¬ (IsLawful (M.machine machine.new) set_cell)) }
    ensures err { IfErr result (λ stop. stop ≡ Memory) }
{
    loop {
        match machine.step(&Event::CellSet) {
            Ok(_) => {}
            Err(StepFault::NotNow) => return Ok(()),
            Err(StepFault::NoMemory) => return Err(Stop::Memory),
        }
    }
}
