//! What each line of a script of events does.
ghost use Rattle.glob_automaton.specs.Automata.{StateLimit};
ghost use Rattle.trace_script.specs.FollowedScripts.{IsPrinted};
ghost use Rattle.trace_steps.specs.StepLines.{Does};
ghost use Rattle.trace_steps.specs.inner.StepValues.{step_value};

use crate::actions::do_command;
use crate::command::{StepCommand, parse_step_line};
use crate::publication::policy_line;
use event_machine::EventMachine;
use std::alloc::Global;
use std::io::Write;
use trace_script::{LineFollower, LineKind, Section, Stop, print_line};

/// Takes the events of each command.
#[derive(Drop)]
pub(crate) struct Stepping;

impl<M: EventMachine> LineFollower<M> for Stepping {
    ghost use Rattle.event_machine.specs.Machine.{Machine};
    ghost use Rattle.trace_steps.specs.StepScript.{StepCommand};
    ghost use Rattle.trace_steps.specs.inner.FollowedSteps.{step_engine};

    ghost Command = { StepCommand };

    ghost State = { Machine };

    ghost state = { λ _ machine. M.machine machine };

    ghost engine = { step_engine };

    // Nothing is counted.
    ghost counted = { λ _ _. 0 };

    fn do_line<A: Write>(
        &mut self,
        alloc: Global,
        machine: &mut M,
        number: u64,
        line: &[u8],
        answers: &mut A,
    ) -> Result<Section, Stop> {
        match parse_step_line(line) {
            LineKind::Ignored => Ok(Section::Outside),
            LineKind::OpensPolicy => Ok(Section::Within {
                start: number,
                text: Vec::new(alloc),
            }),
            LineKind::Command(command) => {
                answer_command(alloc, machine, command, answers)?;
                Ok(Section::Outside)
            }
            LineKind::NoCommand => Err(Stop::NoCommand(number)),
        }
    }

    fn do_policy<A: Write>(
        &mut self,
        alloc: Global,
        machine: &mut M,
        _start: u64,
        text: &[u8],
        answers: &mut A,
    ) -> Result<(), Stop> {
        let line = policy_line(alloc, machine, text)?;
        print_line(answers, &line)
    }
}

/// Does a command, and prints its line, if it prints one.
fn answer_command<M: EventMachine, A: Write>(
    alloc: Global,
    machine: &mut M,
    command: StepCommand<'_>,
    answers: &mut A,
) -> Result<(), Stop>
    ensures { (limit : StateLimit) → IsPrinted (Does limit (M.machine machine.old) (step_value command.entry)) (M.machine machine.new)
        (A.contents answers.old) (A.contents answers.new) result }
{
    match do_command(alloc, machine, command)? {
        Some(line) => print_line(answers, &line),
        None => Ok(()),
    }
}
