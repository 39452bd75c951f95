//! `names`: which names of a list a profile allows something to.
ghost use Rattle.std.specs.Prelude.{◌≡◌, ℕ, List, None};
ghost use Rattle.std.specs.Io.KnownBytes.{Keeps};
ghost use Rattle.trace_arguments.specs.Values.{names_value};
ghost use Rattle.trace_program.specs.Names.{NamesEnd};
ghost use Rattle.trace_report.specs.ReadStreams.{asked_by};
ghost use Rattle.trace_report.specs.Streams.{IsTextOf, streams};

use named_texts::{LateText, NamedTexts};
use std::alloc::Global;
use std::io::{Read, Write};
use trace_arguments::NamesQuestion;
use trace_names::{NamesChoice, select_names};
use trace_report::Status;

/// Reads the profile that is named, which is opened when it is read, and then the list of names from `input`, and writes those that
/// are chosen to `answers`. The permissions are tested before anything is opened.
pub(crate) fn names<T: NamedTexts, R: Read, A: Write, F: Write>(
    alloc: Global,
    texts: &T,
    asked: NamesQuestion<'_>,
    input: &mut R,
    answers: &mut A,
    faults: &mut F,
) -> Status
    ensures output { (text : List ℕ) × IsTextOf (R.remaining input.old) text × NamesEnd (names_value asked.entry)
        (T.known texts.now asked.entry.profile.now) text
        (streams (A.contents answers.old) (A.contents answers.new) (F.contents faults.old) (F.contents faults.new)) result }
    ensures unread { asked_by asked.entry.perms.now ≡ None → Keeps (R.remaining input.old) (R.remaining input.new) }
{
    let choice = NamesChoice::of_options(asked.not_allowed, asked.verdicts, asked.null);
    let mut profile = LateText::of(texts, asked.profile);
    select_names(
        alloc,
        choice,
        asked.perms,
        &mut profile,
        input,
        answers,
        faults,
    )
}
