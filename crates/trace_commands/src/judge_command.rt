//! `judge PERMS NAME`: the verdict on a name by the profile that is read.
ghost use Rattle.std.specs.Prelude.{◌≡◌, ℕ, List, IsErr, is_ok};
ghost use Rattle.std.specs.Io.KnownBytes.{Keeps};
ghost use Rattle.answer_json.specs.Lines.{verdict_line};
ghost use Rattle.trace_commands.specs.Judge.{judge_output};
ghost use Rattle.trace_report.specs.Output.{whole_answer};
ghost use Rattle.trace_report.specs.ReadStreams.{ask_of};
ghost use Rattle.trace_report.specs.Streams.{Ends, IsTextOf, streams};
ghost use Rattle.trace_report.specs.declared.format.Format.{Format};
ghost use Rattle.trace_commands.specs.Quiet.{quiet_judge_output};
ghost use Rattle.trace_commands.specs.inner.Answers.{IsJudged};
ghost use Rattle.trace_commands.specs.inner.Quiet.{IsSaidBy};

use answer_json::verdict_line;
use names::{NoMemory, Verdict};
use rule_judge::judge_slow;
use rule_reader::{ReadFault, read};
use std::alloc::Global;
use std::io::{Read, Write};
use trace_report::{Fault, Format, Status, ask_of, fail, read_all, write_answer};

/// Reads a profile from `input` and writes to `answers` its verdict on the name for the permissions asked for, in this format. A
/// fault is reported on `faults` instead of an answer, as text. The arguments are tested before anything is read.
pub fn judge<R: Read, A: Write, F: Write>(
    alloc: Global,
    format: Format,
    perms: &str,
    name: &str,
    input: &mut R,
    answers: &mut A,
    faults: &mut F,
) -> Status
    ensures output { (text : List ℕ) × IsTextOf (R.remaining input.old) text × Ends
        (streams (A.contents answers.old) (A.contents answers.new) (F.contents faults.old) (F.contents faults.new))
        (judge_output format perms.now name.now text) result }
    ensures unread { IsErr (ask_of perms.now name.now)
        → Keeps (R.remaining input.old) (R.remaining input.new) }
{
    match verdict_on(alloc, perms, name, input) {
        Ok(verdict) => answer(alloc, format, verdict, answers, faults),
        Err(fault) => fail(faults, fault, fault.status()),
    }
}

/// Writes the verdict as a line. If that fails, a prefix of the line was written.
fn answer<A: Write, F: Write>(
    alloc: Global,
    format: Format,
    verdict: Verdict,
    answers: &mut A,
    faults: &mut F,
) -> Status
    ensures { Ends
        (streams (A.contents answers.old) (A.contents answers.new) (F.contents faults.old) (F.contents faults.new))
        (whole_answer (verdict_line format verdict)) result }
{
    match verdict_line(alloc, format, verdict) {
        Ok(line) => write_answer(answers, faults, &line),
        Err(NoMemory) => fail(faults, NoMemory, Status::NoMemory),
    }
}

/// The verdict on the name, or why there is none.
pub(crate) fn verdict_on<R: Read>(
    alloc: Global,
    perms: &str,
    name: &str,
    input: &mut R,
) -> Result<Verdict, Fault>
    ensures output { (text : List ℕ) × IsTextOf (R.remaining input.old) text
        × ((format : Format) → IsJudged format (judge_output format perms.now name.now text) result)
        × IsSaidBy (quiet_judge_output perms.now name.now text) result }
    ensures unread { IsErr (ask_of perms.now name.now)
        → Keeps (R.remaining input.old) (R.remaining input.new) }
{
    let ask = ask_of(perms, name)?;
    let text = read_all(alloc, input)?;
    match read(alloc, &text) {
        Ok(profile) => Ok(judge_slow(&profile, name.as_bytes(), ask)),
        Err(ReadFault::NoMemory) => Err(Fault::Memory),
        Err(fault) => Err(Fault::Text(fault)),
    }
}

/// Whether these arguments are permissions and a name that can be judged, which begins with a slash.
pub fn can_be_judged(perms: &str, name: &str) -> bool
    ensures { result ≡ is_ok (ask_of perms.now name.now) }
{
    ask_of(perms, name).is_ok()
}
