//! `lint`: the rules that decide nothing.
ghost use Rattle.std.specs.Prelude.{◌≡◌, ℕ, List, Ok};
ghost use Rattle.rule_influence.specs.Influence.{AreDecided};
ghost use Rattle.rule_reader.specs.ReadText.{outcome_of};
ghost use Rattle.rule_reader.specs.Spans.{spans_of};
ghost use Rattle.trace_lint.specs.LintOutput.{IsAnswerable, IsLintOutput, IsLintOutputOf};
ghost use Rattle.trace_lint.specs.inner.Questions.{IsAnswered, profile_with};
ghost use Rattle.trace_report.specs.Streams.{EndsAnswered, IsTextOf, streams};

use crate::lines::lines;
use crate::parts::{cases_of, idle_parts};
use crate::questions::{decided_by, paired, stand_ins_of};
use crate::texts::Linted;
use names::{NoMemory, Perms};
use rule_influence::RulePair;
use rule_reader::read;
use std::alloc::Global;
use std::io::{Read, Write};
use trace_report::{Fault, Format, Status, fail, read_all, write_finding};

/// Reads a profile from `input` and writes to `answers` a line for each rule that decides nothing, and for each letter that decides
/// nothing of a rule that decides something: where the rule is, its text, and which rules do its work, with a warning if one of
/// these decides nothing of it either. Nothing is written where there is no such rule. In JSON each line is an object with a rule,
/// its letter or `null`, the stand-ins, and the number of the one that is warned of or `null`. Faults are reported on `faults`
/// instead.
pub fn lint<R: Read, A: Write, F: Write>(
    alloc: Global,
    format: Format,
    input: &mut R,
    answers: &mut A,
    faults: &mut F,
) -> Status
    ensures { (text : List ℕ) × IsTextOf (R.remaining input.old) text × EndsAnswered
        (streams (A.contents answers.old) (A.contents answers.new) (F.contents faults.old) (F.contents faults.new))
        (IsLintOutput format text) result }
{
    match answer(alloc, format, input) {
        Ok(lines) => write_finding(answers, faults, &lines, !lines.is_empty()),
        Err(fault) => fail(faults, fault, fault.status()),
    }
}

// The lines, or why there are none.
fn answer<R: Read>(alloc: Global, format: Format, input: &mut R) -> Result<Vec<u8>, Fault>
    ensures { (text : List ℕ) × IsTextOf (R.remaining input.old) text × IsAnswered (IsLintOutput format text) result }
{
    let text = read_all(alloc, input)?;
    answer_on(alloc, format, &text)
}

// The lines about a text.
fn answer_on(alloc: Global, format: Format, text: &[u8]) -> Result<Vec<u8>, Fault>
    ensures { IsAnswered (IsLintOutputOf format text.now (outcome_of text.now)) result }
{
    let profile = read(alloc, text)?;
    let pair = paired(alloc, profile)?;
    let decided = decided_by(alloc, &pair)?;
    answer_by(alloc, format, text, &pair, &decided)
}

// The lines about a text by what its rules decide.
fn answer_by(
    alloc: Global,
    format: Format,
    text: &[u8],
    pair: &RulePair,
    decided: &[Perms],
) -> Result<Vec<u8>, Fault>
    requires decided { AreDecided pair.now.rules decided.now }
    requires spans { pair.now.spans ≡ spans_of text.now }
    requires answerable { IsAnswerable pair.now.rules }
    ensures { IsAnswered (IsLintOutputOf format text.now (Ok (profile_with pair.now.rules))) result }
{
    let profile = pair.rules().profile();
    let Ok(parts) = idle_parts(alloc, profile, decided) else {
        return Err(Fault::Memory);
    };
    let Ok(cases) = cases_of(alloc, profile, &parts) else {
        return Err(Fault::Memory);
    };
    let lists = stand_ins_of(alloc, pair, &cases)?;
    let linted = Linted { text, profile };
    match lines(alloc, format, &linted, decided, &parts, &lists) {
        Ok(lines) => Ok(lines),
        Err(NoMemory) => Err(Fault::Memory),
    }
}
