//! `any`, `all`, `diff` and `lint`: a question about all names. The profiles of `diff` may have names in the command line.
ghost use Rattle.std.specs.Prelude.{◌≡◌, ◌||◌, ℕ, IsTrue, List, is_err, is_some, option_map, true};
ghost use Rattle.std.specs.Io.KnownBytes.{Keeps};
ghost use Rattle.glob_automaton.specs.Automata.{StateLimit};
ghost use Rattle.trace_arguments.specs.Values.{profile_value};
ghost use Rattle.trace_program.specs.Program.{CommandEnds, reads_nothing_of};
ghost use Rattle.trace_program.specs.Questions.{DiffEnds, text_named, witnesses_of};
ghost use Rattle.trace_questions.specs.Differences.{below_asked};
ghost use Rattle.trace_report.specs.Streams.{IsTextOf, streams};

use named_texts::{LateText, NamedTexts};
use std::alloc::Global;
use std::io::{Read, Write};
use trace_arguments::{DiffQuestion, ProfileQuestion};
use trace_lint::lint;
use trace_questions::{Quantifier, Report, Witnesses, differ, search};
use trace_report::Status;

/// Answers a question about all names. The profile is on `input`; those of `diff` may be among `texts`.
pub(crate) fn ask_of_profile<T: NamedTexts, R: Read, A: Write, F: Write>(
    alloc: Global,
    texts: &T,
    question: ProfileQuestion<'_>,
    input: &mut R,
    answers: &mut A,
    faults: &mut F,
) -> Status
    ensures output { (limit : StateLimit) → (text : List ℕ) × IsTextOf (R.remaining input.old) text
        × CommandEnds limit (T.known texts.now) (profile_value question.entry) text
        (streams (A.contents answers.old) (A.contents answers.new) (F.contents faults.old) (F.contents faults.new))
        (R.remaining input.old) (R.remaining input.new) result }
    ensures unread { reads_nothing_of (profile_value question.entry) ≡ true
        → Keeps (R.remaining input.old) (R.remaining input.new) }
{
    match question {
        ProfileQuestion::Any {
            perms,
            pattern,
            each_rule,
            format,
        } => {
            let quantifier = Quantifier::Any(witnesses_of(each_rule));
            search(
                alloc, format, quantifier, perms, pattern, input, answers, faults,
            )
        }
        ProfileQuestion::All {
            perms,
            pattern,
            format,
        } => {
            let quantifier = Quantifier::All;
            search(
                alloc, format, quantifier, perms, pattern, input, answers, faults,
            )
        }
        ProfileQuestion::Diff(asked) => diff(alloc, texts, asked, input, answers, faults),
        ProfileQuestion::Lint { format } => lint(alloc, format, input, answers, faults),
    }
}

/// Which witnesses are requested: one for each rule, or the least.
fn witnesses_of(each_rule: bool) -> Witnesses
    ensures { result ≡ witnesses_of each_rule }
{
    if each_rule {
        Witnesses::EachRule
    } else {
        Witnesses::Least
    }
}

/// Compares two profiles, each of which is opened when it is read, and writes the answer to `answers`, or to `faults` why there is
/// none. The pattern is tested before anything is opened, and a new profile without a name is read from `input`.
fn diff<T: NamedTexts, R: Read, A: Write, F: Write>(
    alloc: Global,
    texts: &T,
    asked: DiffQuestion<'_>,
    input: &mut R,
    answers: &mut A,
    faults: &mut F,
) -> Status
    ensures output { (text : List ℕ) × IsTextOf (R.remaining input.old) text × DiffEnds
        (record { witnesses = witnesses_of asked.entry.each_rule; format = asked.entry.format })
        (option_map (λ below. below.now) asked.entry.below) (T.known texts.now asked.entry.old.now)
        (text_named (T.known texts.now) text (option_map (λ new. new.now) asked.entry.new))
        (streams (A.contents answers.old) (A.contents answers.new) (F.contents faults.old) (F.contents faults.new)) result }
    ensures unread { IsTrue (is_some asked.entry.new || is_err (below_asked (option_map (λ below. below.now) asked.entry.below)))
        → Keeps (R.remaining input.old) (R.remaining input.new) }
{
    let below = asked.below;
    let report = Report {
        witnesses: witnesses_of(asked.each_rule),
        format: asked.format,
    };
    let mut old = LateText::of(texts, asked.old);
    match asked.new {
        Some(name) => {
            let mut new = LateText::of(texts, name);
            differ(alloc, below, report, &mut old, &mut new, answers, faults)
        }
        None => differ(alloc, below, report, &mut old, input, answers, faults),
    }
}
