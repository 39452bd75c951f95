//! `compile`: the image of the profile that is read.
ghost use Rattle.std.specs.Prelude.{◌≡◌, ◌≢◌, ◌⊎◌, ◌<◌, ℕ, IfOk, List, Ok, Some};
ghost use Rattle.rule_profile.specs.Profile.{profile_value};
ghost use Rattle.trace_commands.specs.inner.Answers.{IsAnswered};
ghost use Rattle.trace_report.specs.Streams.{EndsInOne, IsTextOf, streams};
ghost use Rattle.trace_commands.specs.Tables.{IsCompileOutput, IsCompileOutputOf, IsVersionAsked};
ghost use Rattle.tables.specs.Bounds.{InBounds};
ghost use Rattle.tables.specs.Images.{IsVersionOf};
ghost use Rattle.tables.specs.Tables.{table_value};
ghost use Rattle.tables.specs.declared.header.Version.{Version};

use matcher::{chained_table_of, table_of};
use names::NoMemory;
use rule_profile::Profile;
use rule_reader::read;
use std::alloc::Global;
use std::io::{Read, Write};
use tables::{RawTable, to_bytes, to_bytes_v1};
use trace_report::{Fault, Status, fail, read_all, write_answer};

/// Reads a profile from `input` and writes the image of its table to `answers`, in which no state has a greater depth: for a depth
/// of 0 in version 1, if that can hold the table, and else in version 2. A fault is reported on `faults` instead.
pub fn compile<R: Read, A: Write, F: Write>(
    alloc: Global,
    depth: u16,
    input: &mut R,
    answers: &mut A,
    faults: &mut F,
) -> Status
    ensures { (text : List ℕ) × IsTextOf (R.remaining input.old) text × EndsInOne
        (streams (A.contents answers.old) (A.contents answers.new) (F.contents faults.old) (F.contents faults.new))
        (IsCompileOutput depth text) result }
{
    match image_read(alloc, depth, input) {
        Ok(image) => write_answer(answers, faults, &image),
        Err(fault) => fail(faults, fault, fault.status()),
    }
}

/// The image of the profile, or why there is none.
fn image_read<R: Read>(alloc: Global, depth: u16, input: &mut R) -> Result<Vec<u8>, Fault>
    ensures { (text : List ℕ) × IsTextOf (R.remaining input.old) text × IsAnswered (IsCompileOutput depth text) result }
{
    let text = read_all(alloc, input)?;
    image_of_text(alloc, depth, &text)
}

/// The image of a text's profile, or why there is none.
fn image_of_text(alloc: Global, depth: u16, text: &[u8]) -> Result<Vec<u8>, Fault>
    ensures { IsAnswered (IsCompileOutput depth text.now) result }
{
    let profile = read(alloc, text)?;
    if depth == 0 {
        flat_image(alloc, &profile)
    } else {
        chained_image(alloc, depth, &profile)
    }
}

/// The image of a profile without chains of defaults, or why there is none.
fn flat_image(alloc: Global, profile: &Profile) -> Result<Vec<u8>, Fault>
    ensures { IsAnswered (IsCompileOutputOf 0 (Ok (profile_value profile.now))) result }
{
    let table = table_of(alloc, profile)?;
    match flat_bytes(alloc, &table) {
        Ok(image) => Ok(image),
        Err(NoMemory) => Err(Fault::Memory),
    }
}

/// The image of a table in version 1, if that can hold it, and else in version 2.
fn flat_bytes(alloc: Global, table: &RawTable) -> Result<Vec<u8>, NoMemory>
    requires { InBounds (table_value table.now) }
    ensures { IfOk result (λ bytes. (version : Version) × IsVersionAsked 0 (table_value table.now) version
        × IsVersionOf version bytes.items (table_value table.now)) }
{
    if table.fits_version_1() {
        return to_bytes_v1(alloc, table);
    }
    to_bytes(alloc, table)
}

/// The image of a profile in version 2, with chains of defaults, or why there is none.
fn chained_image(alloc: Global, depth: u16, profile: &Profile) -> Result<Vec<u8>, Fault>
    requires { 0 < depth }
    ensures { IsAnswered (IsCompileOutputOf depth (Ok (profile_value profile.now))) result }
{
    let table = chained_table_of(alloc, profile, depth)?;
    match to_bytes(alloc, &table) {
        Ok(image) => Ok(image),
        Err(NoMemory) => Err(Fault::Memory),
    }
}
