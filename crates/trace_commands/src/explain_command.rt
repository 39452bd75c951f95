//! `explain PERMS NAME`: the verdict on a name by the profile that is read, and the reasons for it.
ghost use Rattle.std.specs.Prelude.{◌≡◌, ◌⊎◌, ◌++◌, ℕ, List, IsErr, IfOk, string_bytes};
ghost use Rattle.std.specs.Io.KnownBytes.{Keeps};
ghost use Rattle.names.specs.Errors.{no_memory_text};
ghost use Rattle.rule_reader.specs.ReadText.{outcome_of};
ghost use Rattle.trace_commands.specs.Explain.{explain_output, explained_output, refusal_text};
ghost use Rattle.trace_commands.specs.inner.Answers.{IsTextAsked};
ghost use Rattle.trace_report.specs.declared.format.Format.{Format};
ghost use Rattle.trace_report.specs.ReadStreams.{ask_of};
ghost use Rattle.trace_report.specs.Streams.{Ends, IsTextOf, IsTold, streams};

use answer_json::explanation;
use names::{NoMemory, Perms};
use rule_explain::fault_lines;
use rule_reader::{ReadFault, read};
use std::alloc::Global;
use std::io::{Read, Write};
use trace_report::{Fault, Format, Status, ask_of, fail, read_all, write_answer};

/// Reads a profile from `input` and writes to `answers` its verdict on the name for the permissions asked for, and the reason for
/// each of them, in this format. A text that is refused is reported on `faults` instead, as text, with the line that has its
/// fault. The arguments are tested before anything is read.
pub fn explain<R: Read, A: Write, F: Write>(
    alloc: Global,
    format: Format,
    perms: &str,
    name: &str,
    input: &mut R,
    answers: &mut A,
    faults: &mut F,
) -> Status
    ensures output { (text : List ℕ) × IsTextOf (R.remaining input.old) text × Ends
        (streams (A.contents answers.old) (A.contents answers.new) (F.contents faults.old) (F.contents faults.new))
        (explain_output format perms.now name.now text) result }
    ensures unread { IsErr (ask_of perms.now name.now)
        → Keeps (R.remaining input.old) (R.remaining input.new) }
{
    match text_asked(alloc, perms, name, input) {
        Ok((ask, text)) => explain_text(alloc, format, ask, name, &text, answers, faults),
        Err(fault) => fail(faults, fault, fault.status()),
    }
}

/// The permissions asked for, and the text that is left to read.
fn text_asked<R: Read>(
    alloc: Global,
    perms: &str,
    name: &str,
    input: &mut R,
) -> Result<(Perms, Vec<u8>), Fault>
    ensures output { (text : List ℕ) × IsTextOf (R.remaining input.old) text
        × ((format : Format) → IsTextAsked perms.now name.now text (explain_output format perms.now name.now text) result) }
    ensures unread { IsErr (ask_of perms.now name.now)
        → Keeps (R.remaining input.old) (R.remaining input.new) }
{
    let ask = ask_of(perms, name)?;
    let text = read_all(alloc, input)?;
    Ok((ask, text))
}

/// Explains the verdict on a name by a text, or reports where the text is refused.
fn explain_text<A: Write, F: Write>(
    alloc: Global,
    format: Format,
    ask: Perms,
    name: &str,
    text: &[u8],
    answers: &mut A,
    faults: &mut F,
) -> Status
    ensures { Ends
        (streams (A.contents answers.old) (A.contents answers.new) (F.contents faults.old) (F.contents faults.new))
        (explained_output format ask name.now text.now (outcome_of text.now)) result }
{
    match read(alloc, text) {
        Ok(profile) => {
            match explanation(alloc, format, text, &profile, name.as_bytes(), ask) {
                Ok(lines) => write_answer(answers, faults, &lines),
                Err(NoMemory) => fail(faults, NoMemory, Status::NoMemory),
            }
        }
        Err(ReadFault::NoMemory) => fail(faults, NoMemory, Status::NoMemory),
        Err(fault) => refuse(alloc, text, fault, faults),
    }
}

/// Reports where a text is refused, and for what.
fn refuse<F: Write>(alloc: Global, text: &[u8], fault: ReadFault, faults: &mut F) -> Status
    ensures { IsTold (F.contents faults.old) (F.contents faults.new) (refusal_text text.now fault) Status.Refused result
        ⊎ IsTold (F.contents faults.old) (F.contents faults.new) no_memory_text Status.NoMemory result }
{
    match refusal_text(alloc, text, fault) {
        Ok(told) => fail(faults, told, Status::Refused),
        Err(NoMemory) => fail(faults, NoMemory, Status::NoMemory),
    }
}

fn refusal_text(alloc: Global, text: &[u8], fault: ReadFault) -> Result<String, NoMemory>
    ensures { IfOk result (λ told. string_bytes told ≡ refusal_text text.now fault) }
{
    let refusal = Fault::Text(fault);
    let lines = fault_lines(alloc, text, fault)?;
    match format!(in alloc; "{refusal}\n{lines}") {
        Ok(told) => Ok(told),
        Err(_) => Err(NoMemory),
    }
}
