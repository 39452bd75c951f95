//! `match PERMS NAME`: the verdict on a name by the image that is read.
ghost use Rattle.std.specs.Prelude.{◌≡◌, ◌≢◌, ◌⊎◌, ℕ, List, IsErr, IfErr, IfOk, Some, None, if◌then◌else◌, ◌==◌, length};
ghost use Rattle.std.specs.Io.KnownBytes.{Keeps};
ghost use Rattle.names.specs.declared.verdict.Verdict.{Verdict};
ghost use Rattle.trace_commands.specs.ReadImages.{ReadsImage};
ghost use Rattle.trace_commands.specs.inner.Answers.{IsAnswered};
ghost use Rattle.trace_report.specs.ReadStreams.{ask_of};
ghost use Rattle.trace_report.specs.Streams.{EndsInOne, IsTextOf, streams};
ghost use Rattle.trace_commands.specs.Tables.{IsMatchOutput, IsMatchedOutput, IsMemoryOfWhole, IsVerdictOf, look_ups_of};
ghost use Rattle.trace_commands.specs.Tables.{match_lines};
ghost use Rattle.trace_commands.specs.inner.Counts.{counted_text};

use crate::image_reader::read_image;
use answer_json::match_line;
use names::{NoMemory, Perms, Verdict, told};
use std::alloc::Global;
use std::io::{Read, Write};
use table_verifier::{LookUps, Steps, VerifiedImage, record_by_image, verify_image};
use tables::images_are_whole;
use trace_report::{Fault, Format, Status, ask_of, fail, write_answer};

/// Reads an image from `input` and writes to `answers` its verdict on the name for the permissions asked for, and how many steps
/// there were; also how many cells were looked up, where states may have a depth; in this format. A fault is reported on `faults`
/// instead, as text. The arguments are tested before anything is read, and a fault of the header is reported once that is read,
/// whatever follows it.
pub fn match_name<R: Read, A: Write, F: Write>(
    alloc: Global,
    format: Format,
    perms: &str,
    name: &str,
    input: &mut R,
    answers: &mut A,
    faults: &mut F,
) -> Status
    ensures output { (text : List ℕ) × IsTextOf (R.remaining input.old) text × EndsInOne
        (streams (A.contents answers.old) (A.contents answers.new) (F.contents faults.old) (F.contents faults.new))
        (IsMatchOutput format perms.now name.now text) result }
    ensures unread { IsErr (ask_of perms.now name.now)
        → Keeps (R.remaining input.old) (R.remaining input.new) }
    ensures front { ReadsImage (R.remaining input.old) (R.remaining input.new) }
{
    match match_read(alloc, format, perms, name, input) {
        Ok(lines) => write_answer(answers, faults, &lines),
        Err(fault) => fail(faults, fault, fault.status()),
    }
}

/// The lines of an answer, or why there are none.
fn match_read<R: Read>(
    alloc: Global,
    format: Format,
    perms: &str,
    name: &str,
    input: &mut R,
) -> Result<Vec<u8>, Fault>
    ensures output { (text : List ℕ) × IsTextOf (R.remaining input.old) text
        × IsAnswered (IsMatchOutput format perms.now name.now text) result }
    ensures unread { IsErr (ask_of perms.now name.now)
        → Keeps (R.remaining input.old) (R.remaining input.new) }
    ensures front { ReadsImage (R.remaining input.old) (R.remaining input.new) }
{
    let ask = ask_of(perms, name)?;
    let image = read_image(alloc, input)?;
    match_image(alloc, format, &image, name.as_bytes(), ask)
}

/// The same for an image that was read. It is judged by where it is.
fn match_image(
    alloc: Global,
    format: Format,
    image: &[u8],
    name: &[u8],
    ask: Perms,
) -> Result<Vec<u8>, Fault>
    ensures output { IsAnswered (IsMatchedOutput format ask name.now image.now) result }
    ensures memory { IfErr result (IsMemoryOfWhole image.now) }
{
    images_are_whole();
    let verified = verify_image(image)?;
    match match_lines(alloc, format, &verified, name, ask) {
        Ok(lines) => Ok(lines),
        Err(NoMemory) => Err(Fault::Memory),
    }
}

/// The verdict, the number of steps, and the number of look-ups where states may have a depth.
fn match_lines(
    alloc: Global,
    format: Format,
    image: &VerifiedImage<'_>,
    name: &[u8],
    ask: Perms,
) -> Result<Vec<u8>, NoMemory>
    ensures { IfOk result (λ text. (verdict : Verdict) × IsVerdictOf image.now name.now ask verdict
        × (text.items ≡ match_lines format image.now name.now verdict)) }
{
    let CountedVerdict {
        verdict,
        steps,
        look_ups,
    } = verdict_by_image(image, name, ask);
    match format {
        Format::Text => counted_text(alloc, verdict, steps, look_ups),
        Format::Json => match_line(alloc, verdict, steps, look_ups),
    }
}

/// A verdict by an image, and what it took.
#[derive(Clone, Copy)]
pub(crate) struct CountedVerdict {
    pub(crate) verdict: Verdict,
    /// The steps: one for each byte of the name.
    steps: u64,
    /// The cells that were looked up, where states may have a depth.
    look_ups: Option<u128>,
}

/// The verdict of an image that was verified.
pub(crate) fn verdict_by_image(image: &VerifiedImage<'_>, name: &[u8], ask: Perms) -> CountedVerdict
    ensures verdict { IsVerdictOf image.now name.now ask result.verdict }
    ensures steps { result.steps ≡ length name.now }
    ensures look_ups { result.look_ups ≡ look_ups_of image.now name.now }
{
    // A depth has few bits, so the look-ups of a name can be counted.
    let depth = image.depth_bound();
    let mut steps = Steps::new();
    let mut lookups = LookUps::new();
    let record = record_by_image(image, name, &mut steps, &mut lookups);
    CountedVerdict {
        verdict: told(&record, ask),
        steps: steps.count(),
        look_ups: known_look_ups(depth, lookups.count()),
    }
}

/// The number of look-ups, where states may have a depth.
fn known_look_ups(depth: u16, count: u128) -> Option<u128>
    ensures { result ≡ (if depth == 0 then None else Some count) }
{
    if depth == 0 { None } else { Some(count) }
}

/// The verdict, then `steps N`, and then `lookups K`.
fn counted_text(
    alloc: Global,
    verdict: Verdict,
    steps: u64,
    look_ups: Option<u128>,
) -> Result<Vec<u8>, NoMemory>
    ensures { IfOk result (λ text. text.items ≡ counted_text verdict steps look_ups) }
{
    let text = match look_ups {
        None => format!(in alloc; "{verdict}\nsteps {steps}\n"),
        Some(count) => format!(in alloc; "{verdict}\nsteps {steps}\nlookups {count}\n"),
    };
    match text {
        Ok(text) => Ok(text.into_bytes()),
        Err(_) => Err(NoMemory),
    }
}
