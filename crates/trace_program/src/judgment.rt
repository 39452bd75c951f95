//! `judge`, `explain` and `match`: a question about one name.
ghost use Rattle.std.specs.Prelude.{◌≡◌, ℕ, List, Option, true};
ghost use Rattle.std.specs.Io.KnownBytes.{Keeps};
ghost use Rattle.glob_automaton.specs.Automata.{StateLimit};
ghost use Rattle.trace_arguments.specs.Values.{name_value};
ghost use Rattle.trace_program.specs.Program.{CommandEnds, reads_nothing_of};
ghost use Rattle.trace_report.specs.Streams.{IsTextOf, streams};

use std::alloc::Global;
use std::io::{Read, Write};
use trace_arguments::{NameCommand, NameQuestion};
use trace_commands::{explain, judge, judge_quietly, match_name, match_quietly};
use trace_report::Status;

/// Judges a name by the profile or the image on `input`, as its command does.
pub(crate) fn ask_of_name<R: Read, A: Write, F: Write>(
    alloc: Global,
    question: NameQuestion<'_>,
    input: &mut R,
    answers: &mut A,
    faults: &mut F,
) -> Status
    ensures output { (limit : StateLimit) (known : List ℕ → Option (List ℕ)) → (text : List ℕ) × IsTextOf (R.remaining input.old) text
        × CommandEnds limit known (name_value question.entry) text
        (streams (A.contents answers.old) (A.contents answers.new) (F.contents faults.old) (F.contents faults.new))
        (R.remaining input.old) (R.remaining input.new) result }
    ensures unread { reads_nothing_of (name_value question.entry) ≡ true
        → Keeps (R.remaining input.old) (R.remaining input.new) }
{
    let NameQuestion {
        command,
        perms,
        name,
        format,
        quiet,
    } = question;
    match (command, quiet) {
        (NameCommand::Judge, false) => judge(alloc, format, perms, name, input, answers, faults),
        (NameCommand::Judge, true) => judge_quietly(alloc, perms, name, input, faults),
        (NameCommand::Explain, _) => explain(alloc, format, perms, name, input, answers, faults),
        (NameCommand::Match, false) => {
            match_name(alloc, format, perms, name, input, answers, faults)
        }
        (NameCommand::Match, true) => match_quietly(alloc, perms, name, input, faults),
    }
}
