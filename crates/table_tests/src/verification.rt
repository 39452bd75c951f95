//! The smallest tables, sound and altered, and strangers' tables.
use names::Record;
use std::alloc::Global;
use std::process::Abort;
use std::test::Fail;
use table_image::{ImageFault, RawTable};
use table_verifier::{LookUps, State, Steps, VerifiedTable, tables_in_bounds_run, verify};
use test_parts::{fault_of, put, verified};

mod altered;
mod runs;
mod shapes;

// A table of `states` dead states that share one row and have no depth, `cells` cells, which state 0 owns, and `records` records.
fn counted(alloc: Global, states: usize, cells: usize, records: usize) -> Result<RawTable, Fail> {
    let zeros = Vec::from_elem(alloc, 0u32, states)?;
    Ok(RawTable {
        default: zeros.clone()?,
        base: zeros.clone()?,
        accept: zeros.clone()?,
        next: Vec::from_elem(alloc, 0, cells)?,
        check: Vec::from_elem(alloc, 0, cells)?,
        records: Vec::from_elem(alloc, Record::none(), records)?,
        depth_bound: 0,
        depth: zeros,
    })
}

// Two states, both dead, with one row of free cells.
fn smallest(alloc: Global) -> Result<RawTable, Fail> {
    let mut table = counted(alloc, 2, 256, 1)?;
    table.check.fill(u32::MAX);
    Ok(table)
}

// Puts each number at its place.
fn put_all(numbers: &mut Vec<u32>, places: &[(usize, u32)]) {
    for (place, number) in places {
        put(numbers, *place, *number);
    }
}

// The lists of numbers in a table.
#[derive(Clone, Copy, Debug)]
enum List {
    Default,
    Base,
    Accept,
    Next,
    Check,
    Depth,
}

fn list_of(table: &mut RawTable, list: List) -> &mut Vec<u32> {
    match list {
        List::Default => &mut table.default,
        List::Base => &mut table.base,
        List::Accept => &mut table.accept,
        List::Next => &mut table.next,
        List::Check => &mut table.check,
        List::Depth => &mut table.depth,
    }
}
