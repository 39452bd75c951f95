//! `audit PROFILES..`: what the rules of profiles say now about the denials of a log.
ghost use Rattle.std.specs.Prelude.{◌≡◌, IfOk, map};
ghost use Rattle.trace_audit.specs.Audit.{AreLines, AuditEnds};
ghost use Rattle.trace_audit.specs.Groups.{groups_of};
ghost use Rattle.trace_audit.specs.inner.FoundValues.{text_value};
ghost use Rattle.trace_audit.specs.inner.Audited.{IsAudited};
ghost use Rattle.trace_report.specs.Streams.{streams};

use crate::groups::groups_of;
use crate::lookup::ProfileText;
use crate::rows::lines_of;
use crate::texts::texts_named;
use named_texts::NamedTexts;
use names::NoMemory;
use std::alloc::Global;
use std::io::{Read, Write};
use trace_report::{Fault, Format, Status, fail, read_all, write_answer};

/// Reads the profiles, each by its name from `texts`, and then a log from `input`, and writes to `answers` a line for each different
/// denial of a file: what the rules of its profile say now. A profile is a text in this program's language, or one of a flattened
/// text, imported for the subject of the denial. Equal denials are reported once, with their number. A fault is reported on
/// `faults` instead.
///
/// The time grows with the log, n of whose denials take n log n comparisons, and with the texts times the pairs of a profile and a
/// subject that the log names, each of which is looked up once.
pub fn audit<T: NamedTexts, R: Read, A: Write, F: Write>(
    alloc: Global,
    texts: &T,
    profiles: &[&str],
    format: Format,
    input: &mut R,
    answers: &mut A,
    faults: &mut F,
) -> Status
    ensures { AuditEnds format (T.known texts.now) (map (λ name. name.now) profiles.now) (R.remaining input.old)
        (streams (A.contents answers.old) (A.contents answers.new) (F.contents faults.old) (F.contents faults.new)) result }
{
    match lines(alloc, texts, profiles, format, input) {
        Ok(lines) => write_answer(answers, faults, &lines),
        Err(fault) => fail(faults, fault, fault.status()),
    }
}

/// The lines, or why there are none.
fn lines<T: NamedTexts, R: Read>(
    alloc: Global,
    texts: &T,
    profiles: &[&str],
    format: Format,
    input: &mut R,
) -> Result<Vec<u8>, Fault>
    ensures { IsAudited format (T.known texts.now) (map (λ name. name.now) profiles.now) (R.remaining input.old) result }
{
    let texts = texts_named(alloc, texts, profiles)?;
    let log = read_all(alloc, input)?;
    match lines_on(alloc, format, &texts, &log) {
        Ok(lines) => Ok(lines),
        Err(NoMemory) => Err(Fault::Memory),
    }
}

/// The lines about a log.
fn lines_on(
    alloc: Global,
    format: Format,
    texts: &[ProfileText<'_>],
    log: &[u8],
) -> Result<Vec<u8>, NoMemory>
    ensures { IfOk result (λ lines. AreLines format (map text_value texts.now) (groups_of log.now) lines.items) }
{
    let groups = groups_of(alloc, log)?;
    lines_of(alloc, format, texts, &groups)
}
