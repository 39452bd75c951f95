//! Tables as they are copied and compared, and their images, written number after number.
use names::{LeastHits, Permission, Record};
use std::alloc::{AllocError, Global};
use tables::RawTable;

/// The same table.
pub fn copy_of_table(table: &RawTable) -> Result<RawTable, AllocError> {
    Ok(RawTable {
        default: table.default.clone()?,
        base: table.base.clone()?,
        accept: table.accept.clone()?,
        next: table.next.clone()?,
        check: table.check.clone()?,
        records: table.records.clone()?,
        depth_bound: table.depth_bound,
        depth: table.depth.clone()?,
    })
}

/// Whether two tables are the same.
pub fn tables_are_equal(one: &RawTable, other: &RawTable) -> bool {
    one.default == other.default
        && one.base == other.base
        && one.accept == other.accept
        && one.next == other.next
        && one.check == other.check
        && one.records == other.records
        && one.depth_bound == other.depth_bound
        && one.depth == other.depth
}

/// The image of a table in a version.
pub fn image_of_table(
    alloc: Global,
    table: &RawTable,
    version: u16,
) -> Result<Vec<u8>, AllocError> {
    let mut image = b"PTAB".to_vec(alloc)?;
    image.extend_from_slice(&version.to_le_bytes())?;
    image.extend_from_slice(&table.depth_bound.to_le_bytes())?;
    for count in [table.default.len(), table.next.len(), table.records.len()] {
        push_word(&mut image, u32::try_from(count).unwrap_or(u32::MAX))?;
    }
    push_words(&mut image, &table.default)?;
    push_words(&mut image, &table.base)?;
    push_words(&mut image, &table.accept)?;
    if version == 2 {
        push_words(&mut image, &table.depth)?;
    }
    push_words(&mut image, &table.next)?;
    push_words(&mut image, &table.check)?;
    push_records(&mut image, &table.records, version)?;
    Ok(image)
}

fn push_word(image: &mut Vec<u8>, number: u32) -> Result<(), AllocError> {
    image.extend_from_slice(&number.to_le_bytes())?;
    Ok(())
}

fn push_words(image: &mut Vec<u8>, numbers: &[u32]) -> Result<(), AllocError> {
    for number in numbers {
        push_word(image, *number)?;
    }
    Ok(())
}

fn push_hits(image: &mut Vec<u8>, hits: LeastHits) -> Result<(), AllocError> {
    image.extend_from_slice(&hits.allow.to_le_bytes())?;
    image.extend_from_slice(&hits.deny.to_le_bytes())?;
    Ok(())
}

// Version 1 has no hits for append.
fn push_record(image: &mut Vec<u8>, record: &Record, version: u16) -> Result<(), AllocError> {
    for permission in &Permission::ALL {
        if version == 2 || *permission != Permission::Append {
            push_hits(image, record.of(*permission))?;
        }
    }
    Ok(())
}

fn push_records(image: &mut Vec<u8>, records: &[Record], version: u16) -> Result<(), AllocError> {
    for record in records {
        push_record(image, record, version)?;
    }
    Ok(())
}

/// The smallest image of version 1: 2 dead states that share 256 free cells, and a record of no hits.
pub fn smallest_image(alloc: Global) -> Result<Vec<u8>, AllocError> {
    let mut bytes = b"PTAB\x01\0\0\0\x02\0\0\0\0\x01\0\0\x01\0\0\0".to_vec(alloc)?;
    bytes.resize(1_068, 0)?;
    bytes.resize(2_092, 255)?;
    bytes.resize(2_112, 0)?;
    Ok(bytes)
}

// The magic, version 2, a bound of 1, and 3 states, 256 cells and 1 record.
const HEADER: &[u8] = b"PTAB\x02\0\x01\0\x03\0\0\0\0\x01\0\0\x01\0\0\0";

/// The image of three states with these defaults and depths, which share a row of free cells and a record of no hits.
pub fn three_states_image(
    alloc: Global,
    default: [u32; 3],
    depth: [u32; 3],
) -> Result<Vec<u8>, AllocError> {
    let mut bytes = HEADER.to_vec(alloc)?;
    push_words(&mut bytes, &default)?;
    push_words(&mut bytes, &[0; 3])?;
    push_words(&mut bytes, &[0; 3])?;
    push_words(&mut bytes, &depth)?;
    bytes.resize(1_092, 0)?;
    bytes.resize(2_116, 255)?;
    bytes.resize(2_140, 0)?;
    Ok(bytes)
}

/// The image of the smallest table with a chain.
pub fn smallest_chained_image(alloc: Global) -> Result<Vec<u8>, AllocError> {
    three_states_image(alloc, [0, 2, 0], [0, 1, 0])
}

/// Puts a number at a place, if there is such a place.
pub fn put(numbers: &mut Vec<u32>, place: usize, number: u32) {
    if let Some(found) = numbers.get_mut(place) {
        *found = number;
    }
}
