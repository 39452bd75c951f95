//! Tables as bytes, and back.
ghost use Rattle.std.specs.Prelude.{◌≡◌, ◌⊎◌, All, ◌+◌, ◌*◌, ◌<◌, ◌≤◌, ◌++◌, IfOk, IfErr, OnOk, length, map};
ghost use Rattle.std.specs.List.{concat};
ghost use Rattle.byteorder.specs.Endian.{little_bytes};
ghost use Rattle.tables.specs.Bounds.{IsShaped, IsWithinLimits};
ghost use Rattle.tables.specs.Images.{AreShort, AreWords, FitsVersion1, IsFirstImageFault, IsImageOf, IsVersionOf};
ghost use Rattle.tables.specs.Images.{IsWhole, bound_of, depth_count, depths_of, header_of, hits_bytes, record_bytes, record_length};
ghost use Rattle.tables.specs.Images.{words};
ghost use Rattle.tables.specs.inner.Places.{IsCounted, IsShortAsStored};
ghost use Rattle.tables.specs.inner.ReadTables.{depths_at, hits_at, record_at, records_at, table_at, words_at};
ghost use Rattle.tables.specs.Tables.{table_value};
ghost use Rattle.tables.specs.declared.fault.ImageFault.TheVariants as fault;
ghost use Rattle.tables.specs.declared.header.Version.TheVariants.{First, Second};

use crate::fault::ImageFault;
use crate::header::{Counts, HEADER_LENGTH, HITS_LENGTH, Version, WORD_LENGTH, read_header};
use crate::table::RawTable;
use byteorder::{ByteOrder, LittleEndian};
use names::{LeastHits, NoMemory, Permission, Record, permissions_are_numbered};
use std::alloc::{AllocError, Global};

/// The image, in version 2, of tables whose counts are within the limits and whose lists are equally long within each group.
pub fn to_bytes(alloc: Global, table: &RawTable) -> Result<Vec<u8>, NoMemory>
    requires shaped { IsShaped (table_value table.now) }
    requires limits { IsWithinLimits (table_value table.now) }
    ensures { IfOk result (λ bytes. IsVersionOf Second bytes.items (table_value table.now)) }
{
    match write_table(alloc, table, Version::Second) {
        Ok(bytes) => Ok(bytes),
        Err(AllocError) => Err(NoMemory),
    }
}

/// The image in version 1 of such tables whose states have no depth, and whose records have the hits of write for append.
pub fn to_bytes_v1(alloc: Global, table: &RawTable) -> Result<Vec<u8>, NoMemory>
    requires shaped { IsShaped (table_value table.now) }
    requires limits { IsWithinLimits (table_value table.now) }
    requires fits { FitsVersion1 (table_value table.now) }
    ensures { IfOk result (λ bytes. IsVersionOf First bytes.items (table_value table.now)) }
{
    match write_table(alloc, table, Version::First) {
        Ok(bytes) => Ok(bytes),
        Err(AllocError) => Err(NoMemory),
    }
}

fn write_table(alloc: Global, table: &RawTable, version: Version) -> Result<Vec<u8>, AllocError>
    requires shaped { IsShaped (table_value table.now) }
    requires limits { IsWithinLimits (table_value table.now) }
    requires fits { version ≡ First → FitsVersion1 (table_value table.now) }
    ensures { IfOk result (λ bytes. IsVersionOf version bytes.items (table_value table.now)) }
{
    let mut bytes = Vec::new(alloc);
    push_header(&mut bytes, table, version)?;
    push_words(&mut bytes, &table.default)?;
    push_words(&mut bytes, &table.base)?;
    push_words(&mut bytes, &table.accept)?;
    push_depths(&mut bytes, table, version)?;
    push_words(&mut bytes, &table.next)?;
    push_words(&mut bytes, &table.check)?;
    push_records(&mut bytes, &table.records, version)?;
    Ok(bytes)
}

fn push_header(bytes: &mut Vec<u8>, table: &RawTable, version: Version) -> Result<(), AllocError>
    requires { IsWithinLimits (table_value table.now) }
    ensures bytes { OnOk result (bytes.new.items ≡ bytes.old.items ++ header_of version (table_value table.now)) }
    ensures room { OnOk result (bound_of version (table_value table.now) < 65536) }
{
    bytes.extend_from_slice(b"PTAB")?;
    push_short(bytes, version.number())?;
    push_short(bytes, version.bound(table.depth_bound))?;
    push_word(bytes, table.default.len() as u32)?;
    push_word(bytes, table.next.len() as u32)?;
    push_word(bytes, table.records.len() as u32)
}

// The depths, if the version has them.
fn push_depths(bytes: &mut Vec<u8>, table: &RawTable, version: Version) -> Result<(), AllocError>
    ensures bytes { OnOk result (bytes.new.items ≡ bytes.old.items ++ words (depths_of version (table_value table.now))) }
    ensures room { AreWords (depths_of version (table_value table.now)) }
{
    match version {
        Version::First => Ok(()),
        Version::Second => push_words(bytes, &table.depth),
    }
}

fn push_word(bytes: &mut Vec<u8>, word: u32) -> Result<(), AllocError>
    ensures { OnOk result (bytes.new.items ≡ bytes.old.items ++ little_bytes 4 word) }
{
    let mut room = [0; 4];
    LittleEndian::write_u32(&mut room, word);
    bytes.extend_from_slice(&room)
}

fn push_words(bytes: &mut Vec<u8>, numbers: &[u32]) -> Result<(), AllocError>
    ensures words { OnOk result (bytes.new.items ≡ bytes.old.items ++ words numbers.now) }
    ensures room { AreWords numbers.now }
{
    for number in numbers {
        push_word(bytes, *number)?;
    }
    Ok(())
}

fn push_short(bytes: &mut Vec<u8>, number: u16) -> Result<(), AllocError>
    ensures bytes { OnOk result (bytes.new.items ≡ bytes.old.items ++ little_bytes 2 number) }
    ensures room { number < 65536 }
{
    let mut room = [0; 2];
    LittleEndian::write_u16(&mut room, number);
    bytes.extend_from_slice(&room)
}

fn push_hits(bytes: &mut Vec<u8>, hits: LeastHits) -> Result<(), AllocError>
    ensures bytes { OnOk result (bytes.new.items ≡ bytes.old.items ++ hits_bytes hits) }
    ensures room { OnOk result (AreShort hits) }
{
    push_short(bytes, hits.allow)?;
    push_short(bytes, hits.deny)
}

fn push_record(bytes: &mut Vec<u8>, record: &Record, version: Version) -> Result<(), AllocError>
    ensures bytes { OnOk result (bytes.new.items ≡ bytes.old.items ++ record_bytes version «record».now) }
    ensures room { OnOk result (IsShortAsStored version «record».now) }
{
    for permission in version.permissions() {
        push_hits(bytes, record.of(*permission))?;
    }
    Ok(())
}

fn push_records(bytes: &mut Vec<u8>, records: &[Record], version: Version) -> Result<(), AllocError>
    ensures bytes { OnOk result (bytes.new.items ≡ bytes.old.items ++ concat (map (record_bytes version) records.now)) }
    ensures room { OnOk result (All (IsShortAsStored version) records.now) }
{
    for record in records {
        push_record(bytes, record, version)?;
    }
    Ok(())
}

/// The tables of an image, or the first fault of its bytes. Nothing is allocated before these faults are tested.
pub fn from_bytes(alloc: Global, bytes: &[u8]) -> Result<RawTable, ImageFault>
    ensures ok { IfOk result (λ table. IsImageOf bytes.now (table_value table)) }
    ensures err { IfErr result (λ f. ((f ≡ fault.NoMemory) × IsWhole bytes.now) ⊎ IsFirstImageFault bytes.now f) }
{
    let counts = read_header(bytes)?;
    Ok(read_table(alloc, bytes, counts)?)
}

// The tables that follow a header, whose places depend on its counts.
fn read_table(alloc: Global, bytes: &[u8], counts: Counts) -> Result<RawTable, AllocError>
    requires { IsCounted bytes.now counts }
    ensures { IfOk result (λ table. table_value table ≡ table_at counts.version bytes.now) }
{
    let states = counts.states as usize;
    let cells = counts.cells as usize;
    let base_at = HEADER_LENGTH + WORD_LENGTH * states;
    let accept_at = base_at + WORD_LENGTH * states;
    let depth_at = accept_at + WORD_LENGTH * states;
    let next_at = depth_at + WORD_LENGTH * counts.version.depth_count(counts.states) as usize;
    let check_at = next_at + WORD_LENGTH * cells;
    let records_at = check_at + WORD_LENGTH * cells;
    Ok(RawTable {
        default: read_words(alloc, bytes, HEADER_LENGTH, states)?,
        base: read_words(alloc, bytes, base_at, states)?,
        accept: read_words(alloc, bytes, accept_at, states)?,
        next: read_words(alloc, bytes, next_at, cells)?,
        check: read_words(alloc, bytes, check_at, cells)?,
        records: read_records(alloc, bytes, records_at, counts)?,
        depth_bound: counts.bound,
        depth: read_depths(alloc, bytes, depth_at, counts)?,
    })
}

fn read_words(alloc: Global, bytes: &[u8], at: usize, count: usize) -> Result<Vec<u32>, AllocError>
    requires { at + 4 * count ≤ length bytes.now }
    ensures { IfOk result (λ v. v.items ≡ words_at bytes.now at count) }
{
    let mut words = Vec::with_capacity(alloc, count)?;
    for place in 0..count {
        words.push(LittleEndian::read_u32(&bytes[at + WORD_LENGTH * place..]))?;
    }
    Ok(words)
}

fn read_depths(
    alloc: Global,
    bytes: &[u8],
    at: usize,
    counts: Counts,
) -> Result<Vec<u32>, AllocError>
    requires { at + 4 * depth_count counts.version counts.states ≤ length bytes.now }
    ensures { IfOk result (λ v. v.items ≡ depths_at counts.version bytes.now at counts.states) }
{
    let states = counts.states as usize;
    match counts.version {
        Version::First => Vec::from_elem(alloc, 0, states),
        Version::Second => read_words(alloc, bytes, at, states),
    }
}

fn read_hits(bytes: &[u8], at: usize) -> LeastHits
    requires { at + 4 ≤ length bytes.now }
    ensures { result ≡ hits_at bytes.now at }
{
    LeastHits {
        allow: LittleEndian::read_u16(&bytes[at..]),
        deny: LittleEndian::read_u16(&bytes[at + 2..]),
    }
}

pub(crate) fn read_record(bytes: &[u8], at: usize, version: Version) -> Record
    requires { at + record_length version ≤ length bytes.now }
    ensures { result ≡ record_at version bytes.now at }
{
    permissions_are_numbered();
    let mut hits = [LeastHits::NONE; Permission::COUNT];
    for permission in &Permission::ALL {
        let place = version.stored_for(*permission).index();
        hits[permission.index()] = read_hits(bytes, at + HITS_LENGTH * place);
    }
    Record::from_hits(hits)
}

fn read_records(
    alloc: Global,
    bytes: &[u8],
    at: usize,
    counts: Counts,
) -> Result<Vec<Record>, AllocError>
    requires { at + record_length counts.version * counts.records ≤ length bytes.now }
    ensures { IfOk result (λ v. v.items ≡ records_at counts.version bytes.now at counts.records) }
{
    let count = counts.records as usize;
    let mut records = Vec::with_capacity(alloc, count)?;
    for place in 0..count {
        let start = at + counts.version.record_length() * place;
        records.push(read_record(bytes, start, counts.version))?;
    }
    Ok(records)
}
