//! `check`: whether the image that is read can be run.
ghost use Rattle.std.specs.Prelude.{◌≡◌, ◌≢◌, ◌⊎◌, ℕ, List, IfErr, IfOk, Some};
ghost use Rattle.trace_commands.specs.ReadImages.{ReadsImage};
ghost use Rattle.trace_commands.specs.inner.Answers.{IsAnswered};
ghost use Rattle.trace_report.specs.Output.{line};
ghost use Rattle.trace_report.specs.Streams.{EndsInOne, IsTextOf, streams};
ghost use Rattle.trace_commands.specs.Tables.{IsCheckOutput, IsMemoryOfWhole, counts_text};

use crate::image_reader::read_image;
use names::NoMemory;
use std::alloc::Global;
use std::io::{Read, Write};
use table_verifier::{VerifiedImage, verify_image};
use tables::images_are_whole;
use trace_report::{Fault, Status, fail, write_answer};

/// Reads an image from `input` and writes to `answers` how many states, cells and records it has, and which depth its states may
/// have, where that is over 0. Its first fault is reported on `faults` instead. A fault of the header is reported once that is
/// read, whatever follows it.
pub fn check<R: Read, A: Write, F: Write>(
    alloc: Global,
    input: &mut R,
    answers: &mut A,
    faults: &mut F,
) -> Status
    ensures output { (text : List ℕ) × IsTextOf (R.remaining input.old) text × EndsInOne
        (streams (A.contents answers.old) (A.contents answers.new) (F.contents faults.old) (F.contents faults.new))
        (IsCheckOutput text) result }
    ensures front { ReadsImage (R.remaining input.old) (R.remaining input.new) }
{
    match counts_read(alloc, input) {
        Ok(line) => write_answer(answers, faults, &line),
        Err(fault) => fail(faults, fault, fault.status()),
    }
}

/// The line of an image's counts, or why there is none.
fn counts_read<R: Read>(alloc: Global, input: &mut R) -> Result<Vec<u8>, Fault>
    ensures output { (text : List ℕ) × IsTextOf (R.remaining input.old) text × IsAnswered (IsCheckOutput text) result }
    ensures front { ReadsImage (R.remaining input.old) (R.remaining input.new) }
{
    let image = read_image(alloc, input)?;
    counts_of_image(alloc, &image)
}

/// The same for an image that was read.
fn counts_of_image(alloc: Global, image: &[u8]) -> Result<Vec<u8>, Fault>
    ensures output { IsAnswered (IsCheckOutput image.now) result }
    ensures memory { IfErr result (IsMemoryOfWhole image.now) }
{
    images_are_whole();
    let verified = verify_image(image)?;
    match counts_line(alloc, &verified) {
        Ok(line) => Ok(line),
        Err(NoMemory) => Err(Fault::Memory),
    }
}

/// `ok states N cells M accepts K`, and then ` depth D` where states may have a depth.
fn counts_line(alloc: Global, image: &VerifiedImage<'_>) -> Result<Vec<u8>, NoMemory>
    ensures { IfOk result (λ text. text.items ≡ line (counts_text image.now)) }
{
    let states = image.states();
    let cells = image.cells();
    let records = image.records();
    let depth = image.depth_bound();
    let text = if depth == 0 {
        format!(in alloc; "ok states {states} cells {cells} accepts {records}\n")
    } else {
        format!(in alloc; "ok states {states} cells {cells} accepts {records} depth {depth}\n")
    };
    match text {
        Ok(text) => Ok(text.into_bytes()),
        Err(_) => Err(NoMemory),
    }
}
