//! The commands of a script, done on a bench, and their answers.
ghost use Rattle.std.specs.Prelude.{◌+◌, ◌<◌, ◌≤◌, ◌^◌, OnOk};
ghost use Rattle.glob_automaton.specs.Automata.{StateLimit};
ghost use Rattle.trace_script.specs.Engine.{IsComposed, IsPut};
ghost use Rattle.trace_script.specs.FollowedScripts.{IsPrinted, IsStep};
ghost use Rattle.trace_script.specs.inner.FollowedScripts.{one_line_step};
ghost use Rattle.trace_script.specs.LineValues.{command_value};
ghost use Rattle.mediation.specs.History.{MayChangePolicy, policy_version};
ghost use Rattle.trace_script.specs.RunOutput.{printed};
ghost use Rattle.trace_script.specs.Script.{publish};

use crate::compose::{change_line, drop_line, link_line, open_line, policy_line};
use crate::line::Command;
use crate::stop::Stop;
use mediation::Bench;
use std::alloc::Global;
use std::io::Write;
use trace_report::write_through;

/// Does a command and writes its answer as a line.
pub(crate) fn answer_command<B: Bench, A: Write>(
    alloc: Global,
    bench: &mut B,
    command: Command<'_>,
    answers: &mut A,
) -> Result<(), Stop>
    requires { MayChangePolicy (B.history bench.old).deeds }
    ensures line { (limit : StateLimit) →
        IsPrinted (IsStep (one_line_step (printed limit (B.history bench.old) (command_value command.entry))))
        (B.history bench.new)
        (A.contents answers.old) (A.contents answers.new) result }
    ensures few { OnOk result (policy_version (B.history bench.new) ≤ policy_version (B.history bench.old) + 1) }
{
    let line = command_line(alloc, bench, command)?;
    print_line(answers, &line)
}

/// Does a command, and composes its answer as a line.
pub fn command_line<B: Bench>(
    alloc: Global,
    bench: &mut B,
    command: Command<'_>,
) -> Result<Vec<u8>, Stop>
    requires { MayChangePolicy (B.history bench.old).deeds }
    ensures line { (limit : StateLimit) → IsComposed (printed limit (B.history bench.old) (command_value command.entry))
        (B.history bench.new) result }
    ensures few { OnOk result (policy_version (B.history bench.new) ≤ policy_version (B.history bench.old) + 1) }
{
    match command {
        Command::Remove(name) => drop_line(alloc, bench, name),
        Command::Alter(words) => change_line(alloc, bench, words),
        Command::JudgeOpen { profile, path, ask } => open_line(alloc, bench, profile, path, ask),
        Command::JudgeLink { profile, old, new } => link_line(alloc, bench, profile, old, new),
    }
}

/// Publishes the profile of a text, if it is one, and writes the answer as a line.
pub(crate) fn answer_policy<B: Bench, A: Write>(
    alloc: Global,
    bench: &mut B,
    text: &[u8],
    answers: &mut A,
) -> Result<(), Stop>
    requires { MayChangePolicy (B.history bench.old).deeds }
    ensures line { (limit : StateLimit) →
        IsPrinted (IsStep (one_line_step (printed limit (B.history bench.old) (publish text.now))))
        (B.history bench.new)
        (A.contents answers.old) (A.contents answers.new) result }
    ensures few { OnOk result (policy_version (B.history bench.new) ≤ policy_version (B.history bench.old) + 1) }
{
    let line = policy_line(alloc, bench, text)?;
    print_line(answers, &line)
}

/// Writes a line that is composed.
pub fn print_line<A: Write>(answers: &mut A, line: &[u8]) -> Result<(), Stop>
    ensures { IsPut (A.contents answers.old) (A.contents answers.new) line.now result }
{
    match write_through(answers, line) {
        Ok(()) => Ok(()),
        Err(_) => Err(Stop::Output),
    }
}
