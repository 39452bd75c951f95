//! `judge --quiet PERMS NAME` and `match --quiet PERMS NAME`: the verdict on a name as an exit status, and nothing on standard output.
ghost use Rattle.std.specs.Prelude.{◌≡◌, ℕ, List, Option, IsErr, IfErr};
ghost use Rattle.std.specs.Io.KnownBytes.{Keeps};
ghost use Rattle.trace_report.specs.ReadStreams.{ask_of};
ghost use Rattle.trace_commands.specs.Quiet.{IsQuietMatchOutput, IsQuietlyMatched, quiet_judge_output, quiet_output};
ghost use Rattle.trace_commands.specs.ReadImages.{ReadsImage};
ghost use Rattle.trace_commands.specs.Tables.{IsMemoryOfWhole};
ghost use Rattle.trace_commands.specs.inner.Quiet.{IsQuietlySaid};
ghost use Rattle.trace_report.specs.Streams.{EndsAnswered, IsTextOf, streams};

use crate::image_reader::read_image;
use crate::judge_command::verdict_on;
use crate::match_command::verdict_by_image;
use names::{Perms, Verdict};
use std::alloc::Global;
use std::io::{Read, Write};
use table_verifier::verify_image;
use tables::images_are_whole;
use trace_report::{Fault, Status, ask_of, fail};

/// Reads a profile from `input` and returns whether its rules allow the name the permissions asked for: `Done` if they do, and
/// `Unmet` if not. A fault is reported on `faults`. The arguments are tested before anything is read.
pub fn judge_quietly<R: Read, F: Write>(
    alloc: Global,
    perms: &str,
    name: &str,
    input: &mut R,
    faults: &mut F,
) -> Status
    ensures output { (answers : Option (List ℕ)) → (text : List ℕ) × IsTextOf (R.remaining input.old) text × EndsAnswered
        (streams answers answers (F.contents faults.old) (F.contents faults.new))
        (λ output. output ≡ quiet_judge_output perms.now name.now text) result }
    ensures unread { IsErr (ask_of perms.now name.now)
        → Keeps (R.remaining input.old) (R.remaining input.new) }
{
    match verdict_on(alloc, perms, name, input) {
        Ok(verdict) => quiet_status(verdict),
        Err(fault) => fail(faults, fault, fault.status()),
    }
}

/// Reads an image from `input` and returns whether it allows the name the permissions asked for: `Done` if it does, and `Unmet` if
/// not. A fault is reported on `faults`. The arguments are tested before anything is read, and a fault of the header is reported
/// once that is read, whatever follows it.
pub fn match_quietly<R: Read, F: Write>(
    alloc: Global,
    perms: &str,
    name: &str,
    input: &mut R,
    faults: &mut F,
) -> Status
    ensures output { (answers : Option (List ℕ)) → (text : List ℕ) × IsTextOf (R.remaining input.old) text × EndsAnswered
        (streams answers answers (F.contents faults.old) (F.contents faults.new))
        (IsQuietMatchOutput perms.now name.now text) result }
    ensures unread { IsErr (ask_of perms.now name.now)
        → Keeps (R.remaining input.old) (R.remaining input.new) }
    ensures front { ReadsImage (R.remaining input.old) (R.remaining input.new) }
{
    match verdict_read(alloc, perms, name, input) {
        Ok(verdict) => quiet_status(verdict),
        Err(fault) => fail(faults, fault, fault.status()),
    }
}

/// The status that says a verdict.
fn quiet_status(verdict: Verdict) -> Status
    ensures { result ≡ (quiet_output verdict).status }
{
    match verdict {
        Verdict::Allowed => Status::Done,
        Verdict::Denied { .. } | Verdict::NoRule { .. } => Status::Unmet,
    }
}

/// The verdict of the image that is read, or why there is none.
fn verdict_read<R: Read>(
    alloc: Global,
    perms: &str,
    name: &str,
    input: &mut R,
) -> Result<Verdict, Fault>
    ensures output { (text : List ℕ) × IsTextOf (R.remaining input.old) text
        × IsQuietlySaid (IsQuietMatchOutput perms.now name.now text) result }
    ensures unread { IsErr (ask_of perms.now name.now)
        → Keeps (R.remaining input.old) (R.remaining input.new) }
    ensures front { ReadsImage (R.remaining input.old) (R.remaining input.new) }
{
    let ask = ask_of(perms, name)?;
    let image = read_image(alloc, input)?;
    verdict_of_image(&image, name.as_bytes(), ask)
}

/// The same for an image that was read.
fn verdict_of_image(image: &[u8], name: &[u8], ask: Perms) -> Result<Verdict, Fault>
    ensures output { IsQuietlySaid (IsQuietlyMatched ask name.now image.now) result }
    ensures memory { IfErr result (IsMemoryOfWhole image.now) }
{
    images_are_whole();
    let verified = verify_image(image)?;
    Ok(verdict_by_image(&verified, name, ask).verdict)
}
