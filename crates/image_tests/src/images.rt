//! Images of small profiles, byte for byte.
ghost use Rattle.std.specs.Prelude.{IfOk};
ghost use Rattle.tables.specs.Bounds.{InBounds, IsShaped, IsWithinLimits};
ghost use Rattle.tables.specs.Images.{FitsVersion1};
ghost use Rattle.tables.specs.Tables.{table_value};

use glob_automaton::compile;
use rule_text::read;
use std::alloc::Global;
use std::process::Abort;
use std::test::Fail;
use table_image::{
    ImageFault, RawTable, bytes_have_one_outcome, from_bytes, pack, tables_have_one_outcome,
    to_bytes, to_bytes_v1,
};
use test_parts::{smallest_image, tables_are_equal};

mod append;
mod faults;
mod headers;
mod layout;
mod numbers;

// The tables of a profile's text.
fn tables_of(alloc: Global, text: &[u8]) -> Result<RawTable, Fail>
    ensures { IfOk result (λ table. InBounds (table_value table)) }
{
    let profile = read(alloc, text)?;
    Ok(pack(alloc, &compile(alloc, &profile)?)?)
}

// The image of a profile's text, in version 1.
fn image_of(alloc: Global, text: &[u8]) -> Result<Vec<u8>, Fail> {
    let table = tables_of(alloc, text)?;
    if !table.fits_version_1() {
        return Err(Fail::from("version 1 can't hold the tables"));
    }
    Ok(to_bytes_v1(alloc, &table)?)
}

// The image in version 1 of a profile of one name: 13 states, 258 cells and 2 records.
pub(crate) fn passwd(alloc: Global) -> Result<Vec<u8>, Fail> {
    image_of(alloc, b"profile p { /etc/passwd r, }")
}

// The image with other bytes from a place on.
pub(crate) fn altered(
    alloc: Global,
    image: &[u8],
    place: usize,
    other: &[u8],
) -> Result<Vec<u8>, Fail> {
    let before = image.get(..place).ok_or("no such place")?;
    let rest = image.get(place..).ok_or("no such place")?;
    let behind = rest.get(other.len()..).ok_or("no such place")?;
    let mut bytes = before.to_vec(alloc)?;
    bytes.extend_from_slice(other)?;
    bytes.extend_from_slice(behind)?;
    Ok(bytes)
}

// The tables of an image of version 1.
fn tables_of_first(alloc: Global, image: &[u8]) -> Result<RawTable, Fail>
    ensures shaped { IfOk result (λ table. IsShaped (table_value table)) }
    ensures limits { IfOk result (λ table. IsWithinLimits (table_value table)) }
    ensures fits { IfOk result (λ table. FitsVersion1 (table_value table)) }
{
    if !image.starts_with(b"PTAB\x01\0") {
        return Err(Fail::from("another version"));
    }
    Ok(from_bytes(alloc, image)?)
}

// The tables of an image of version 1, from which the same image is written again. Written in version 2, they are the same tables.
fn tables_and_back(rt: &impl Abort, alloc: Global, image: &[u8]) -> Result<RawTable, Fail> {
    let table = tables_of_first(alloc, image)?;
    let again = to_bytes_v1(alloc, &table)?;
    assert!(rt; again.as_slice() == image);
    let second = to_bytes(alloc, &table)?;
    assert!(rt; tables_are_equal(&from_bytes(alloc, &second)?, &table));
    Ok(table)
}
