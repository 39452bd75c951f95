//! The commands of a script of events, done on a machine.
ghost use Rattle.std.specs.Prelude.{◌≡◌};
ghost use Rattle.glob_automaton.specs.Automata.{StateLimit};
ghost use Rattle.trace_steps.specs.StepLines.{Does};
ghost use Rattle.trace_steps.specs.inner.Actions.{IsDone};
ghost use Rattle.trace_steps.specs.inner.StepValues.{step_value};

use crate::calls::{go_line, open_line, read_cells, take_one};
use crate::changes::{change_line, close_line, keep, set_cells};
use crate::command::StepCommand;
use crate::publication::drop_line;
use event_machine::EventMachine;
use std::alloc::Global;
use trace_script::Stop;

/// Does a command, and composes the line that it prints, if it prints one.
pub(crate) fn do_command<M: EventMachine>(
    alloc: Global,
    machine: &mut M,
    command: StepCommand<'_>,
) -> Result<Option<Vec<u8>>, Stop>
    ensures { (limit : StateLimit) → IsDone (λ lines. Does limit (M.machine machine.old) (step_value command.entry) lines
        (M.machine machine.new)) result }
{
    match command {
        StepCommand::Remove(name) => Ok(Some(drop_line(alloc, machine, name)?)),
        StepCommand::Alter(words) => Ok(Some(change_line(alloc, machine, words)?)),
        StepCommand::Open { profile, path, ask } => {
            Ok(Some(open_line(alloc, machine, profile, path, ask)?))
        }
        StepCommand::Single(event) => take_one(alloc, machine, &event),
        StepCommand::ReadCells { session, most } => read_cells(alloc, machine, session, most),
        StepCommand::Finish(session) => Ok(Some(go_line(alloc, machine, session)?)),
        StepCommand::Keep(words) => keep(alloc, machine, words),
        StepCommand::SetCells(most) => set_cells(alloc, machine, most),
        StepCommand::Close => Ok(Some(close_line(alloc, machine)?)),
    }
}
