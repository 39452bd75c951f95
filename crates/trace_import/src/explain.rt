//! `explain --flattened`: what an imported profile makes of a name, and from where.
ghost use Rattle.std.specs.Prelude.{◌≡◌, IsErr, Ok};
ghost use Rattle.std.specs.Io.KnownBytes.{Keeps};
ghost use Rattle.import_profile.specs.Told.{import_value};
ghost use Rattle.trace_report.specs.ReadStreams.{ask_of};
ghost use Rattle.trace_report.specs.Streams.{EndsInOne, streams};
ghost use Rattle.trace_import.specs.ExplainFlattened.{ExplainEndsOver, IsAskedOutput, explained_import};

use crate::ending::refuse_failed;
use import_origins::origin_explanation;
use import_profile::{ImportOptions, Imported, import_profile};
use names::{NoMemory, Perms};
use std::alloc::Global;
use std::io::{Read, Write};
use trace_report::{Fault, Format, Status, ask_of, fail, read_all, write_answer};

/// Reads a flattened profile text from `input` and writes to `answers` what the requested profile of it, as it is imported, makes of
/// the name for the permissions asked for, and for each of them the rule that decides, its line of the flattened text, and the file
/// that the text names last before that; in this format. A text that is refused is reported on `faults` instead. The arguments
/// are tested before anything is read.
pub fn explain_flattened<R: Read, A: Write, F: Write>(
    alloc: Global,
    format: Format,
    options: ImportOptions<'_>,
    perms: &str,
    name: &str,
    input: &mut R,
    answers: &mut A,
    faults: &mut F,
) -> Status
    ensures output { ExplainEndsOver format options.entry perms.now name.now (R.remaining input.old)
        (streams (A.contents answers.old) (A.contents answers.new) (F.contents faults.old) (F.contents faults.new)) result }
    ensures unread { IsErr (ask_of perms.now name.now) → Keeps (R.remaining input.old) (R.remaining input.new) }
{
    let ask = match ask_of(perms, name) {
        Ok(ask) => ask,
        Err(fault) => return fail(faults, fault, fault.status()),
    };
    match read_all(alloc, input) {
        Ok(text) => explain_text(alloc, format, options, ask, name, &text, answers, faults),
        Err(fault) => fail(faults, fault, fault.status()),
    }
}

/// Explains the verdict on a name by a text, or reports why the text is refused.
fn explain_text<A: Write, F: Write>(
    alloc: Global,
    format: Format,
    options: ImportOptions<'_>,
    ask: Perms,
    name: &str,
    text: &[u8],
    answers: &mut A,
    faults: &mut F,
) -> Status
    ensures { EndsInOne
        (streams (A.contents answers.old) (A.contents answers.new) (F.contents faults.old) (F.contents faults.new))
        (IsAskedOutput format options.entry (Ok ask) name.now text.now) result }
{
    match import_profile(alloc, options, text) {
        Ok(imported) => explain_import(alloc, format, ask, name, text, &imported, answers, faults),
        Err(failure) => refuse_failed(alloc, text, &failure, faults),
    }
}

/// Explains the verdict on a name by a profile that was imported.
fn explain_import<A: Write, F: Write>(
    alloc: Global,
    format: Format,
    ask: Perms,
    name: &str,
    text: &[u8],
    imported: &Imported,
    answers: &mut A,
    faults: &mut F,
) -> Status
    ensures { EndsInOne
        (streams (A.contents answers.old) (A.contents answers.new) (F.contents faults.old) (F.contents faults.new))
        (λ output. output ≡ explained_import format ask name.now text.now (Ok (import_value imported.now))) result }
{
    match origin_explanation(alloc, format, text, &imported.profile, name.as_bytes(), ask) {
        Ok(lines) => write_answer(answers, faults, &lines),
        Err(NoMemory) => fail(faults, NoMemory, Status::NoMemory),
    }
}
