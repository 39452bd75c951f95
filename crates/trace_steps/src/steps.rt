//! `steps --capacity N`: a script of events, taken line by line.
ghost use Rattle.std.specs.Prelude.{ℕ, List};
ghost use Rattle.glob_automaton.specs.Automata.{StateLimit};
ghost use Rattle.trace_report.specs.Streams.{IsTextOf, streams};
ghost use Rattle.trace_steps.specs.StepsOutput.{StepsEnd};

use crate::lines::Stepping;
use event_machine::EventMachine;
use std::alloc::Global;
use std::io::{BufRead, Write};
use trace_report::{Status, fail};
use trace_script::follow_script;

/// Takes the events of a script line by line and writes what the lines print, up to the script's end or to a line that isn't a
/// command.
pub fn run_steps<M: EventMachine, R: BufRead, A: Write, F: Write>(
    alloc: Global,
    machine: &mut M,
    input: &mut R,
    answers: &mut A,
    faults: &mut F,
) -> Status
    ensures { (limit : StateLimit) → (text : List ℕ) × IsTextOf (R.remaining input.old) text × StepsEnd limit
        (streams (A.contents answers.old) (A.contents answers.new) (F.contents faults.old) (F.contents faults.new))
        (R.remaining input.old) (R.remaining input.new) (M.machine machine.old) (M.machine machine.new) text result }
{
    match follow_script(alloc, &mut Stepping, machine, input, answers) {
        Ok(()) => Status::Done,
        Err(stop) => fail(faults, stop, stop.status()),
    }
}
