//! Tables of images with any cell altered.
use super::*;
use table_image::{RawTable, from_bytes};
use table_verifier::verify;
use test_parts::{copy_of_table, smallest_image};

// The image of a profile of one name: 13 states, 258 cells and 2 records.
fn passwd(alloc: Global) -> Result<Vec<u8>, Fail> {
    image_of(alloc, &profile_of(alloc, b" /etc/passwd r, ")?)
}

// Puts a number at a place, if there is such a place, and returns the old one.
fn swap(numbers: &mut Vec<u32>, place: u32, number: u32) -> Option<u32> {
    let found = numbers.get_mut(place as usize)?;
    let old = *found;
    *found = number;
    Some(old)
}

// The first cell whose next can be this number, or for which another fault is reported.
fn first_next_taken(mut table: RawTable, cells: u32, number: u32) -> Option<u32> {
    for cell in 0..cells {
        let old = swap(&mut table.next, cell, number)?;
        match verify(table) {
            Err((ImageFault::Next { cell: told }, refused)) if told == cell => table = refused,
            _ => return Some(cell),
        }
        swap(&mut table.next, cell, old)?;
    }
    None
}

fn expect_nexts_refused(
    rt: &impl Abort,
    alloc: Global,
    image: &[u8],
    number: u32,
) -> Result<(), Fail> {
    let table = from_bytes(alloc, image)?;
    let cells = table.next.len();
    let taken = first_next_taken(table, 258, number);
    assert!(rt; cells == 258 && taken.is_none(), "{number}");
    Ok(())
}

#[test]
fn nexts_out_of_bounds(rt: HostRuntime) -> Result<(), Fail> {
    let image = passwd(rt.alloc())?;
    for number in [13, 65_535, u32::MAX] {
        expect_nexts_refused(&rt, rt.alloc(), &image, number)?;
    }
    Ok(())
}

// A table with another check.
fn with_check(table: &RawTable, cell: u32, number: u32) -> Result<RawTable, Fail> {
    let mut other = copy_of_table(table)?;
    swap(&mut other.check, cell, number).ok_or("no such cell")?;
    Ok(other)
}

// Whether a name is run through a table of depth 0 in as many steps, of one look-up each, as it has bytes.
fn runs(table: &VerifiedTable, name: &[u8]) -> bool {
    let is_flat = table.depth_bound() == 0;
    let (mut steps, mut lookups) = (Steps::new(), LookUps::new());
    let state = run(table, name, &mut steps, &mut lookups);
    let counts = (steps.count(), lookups.count());
    is_flat && counts == (name.len() as u64, name.len() as u128) && state < table.states()
}

// Whether a table is accepted, and runs all these names.
fn runs_all(table: RawTable, names: &[&[u8]]) -> bool {
    match verify(table) {
        Ok(table) => names.iter().all(|name| runs(&table, name)),
        Err(_) => false,
    }
}

// Names of 0, 1 and 2 bytes, byte 0 and byte 255 among them.
const SHORT_NAMES: [&[u8]; 6] = [b"", b"\0", b"\xff", b"/", b"\xff\0", b"/e"];

// All bytes in turn, 4,095 of them.
fn all_bytes(alloc: Global) -> Result<Vec<u8>, Fail> {
    let mut all = Vec::new(alloc);
    for place in 0..4_095u32 {
        all.push((place % 256) as u8)?;
    }
    Ok(all)
}

// The first cell whose check can't be this number.
fn first_check_refused(
    table: &RawTable,
    cells: u32,
    number: u32,
    names: &[&[u8]],
) -> Result<Option<u32>, Fail> {
    for cell in 0..cells {
        if !runs_all(with_check(table, cell, number)?, names) {
            return Ok(Some(cell));
        }
    }
    Ok(None)
}

// Expects that the check of any of the first `cells` cells of an image can be this number: the table runs these names.
fn expect_free_check(
    rt: &impl Abort,
    alloc: Global,
    image: &[u8],
    cells: u32,
    number: u32,
    names: &[&[u8]],
) -> Result<(), Fail> {
    let table = from_bytes(alloc, image)?;
    let refused = first_check_refused(&table, cells, number, names)?;
    assert!(rt; refused.is_none(), "{number}");
    Ok(())
}

// The same for each of three numbers, with short names.
fn expect_free_checks(
    rt: &impl Abort,
    alloc: Global,
    image: &[u8],
    cells: u32,
) -> Result<(), Fail> {
    for number in [0, 1, u32::MAX] {
        expect_free_check(rt, alloc, image, cells, number, &SHORT_NAMES)?;
    }
    Ok(())
}

#[test]
fn any_check(rt: HostRuntime) -> Result<(), Fail> {
    let alloc = rt.alloc();
    expect_free_checks(&rt, alloc, &smallest_image(alloc)?, 256)?;
    expect_free_checks(&rt, alloc, &passwd(alloc)?, 258)
}

// The same with names of 4,095 bytes: bytes 255 alone, and all bytes in turn. Each number has a test of its own, since
// these are the longest runs of all.
fn expect_long_runs(rt: &impl Abort, alloc: Global, number: u32) -> Result<(), Fail> {
    let last = Vec::from_elem(alloc, 255u8, 4_095)?;
    let all = all_bytes(alloc)?;
    let names: [&[u8]; 2] = [&last, &all];
    expect_free_check(rt, alloc, &smallest_image(alloc)?, 256, number, &names)?;
    expect_free_check(rt, alloc, &passwd(alloc)?, 258, number, &names)
}

#[test]
fn any_check_of_state_0(rt: HostRuntime) -> Result<(), Fail> {
    expect_long_runs(&rt, rt.alloc(), 0)
}

#[test]
fn any_check_of_state_1(rt: HostRuntime) -> Result<(), Fail> {
    expect_long_runs(&rt, rt.alloc(), 1)
}

#[test]
fn any_check_of_no_state(rt: HostRuntime) -> Result<(), Fail> {
    expect_long_runs(&rt, rt.alloc(), u32::MAX)
}

fn expect_filled_checks(
    rt: &impl Abort,
    alloc: Global,
    number: u32,
    names: &[&[u8]],
) -> Result<(), Fail> {
    let mut table = from_bytes(alloc, &passwd(alloc)?)?;
    table.check.fill(number);
    assert!(rt; runs_all(table, names), "{number}");
    Ok(())
}

#[test]
fn all_checks(rt: HostRuntime) -> Result<(), Fail> {
    let alloc = rt.alloc();
    let last = Vec::from_elem(alloc, 255u8, 4_095)?;
    let all = all_bytes(alloc)?;
    for number in [0, 1, u32::MAX] {
        expect_filled_checks(&rt, alloc, number, &SHORT_NAMES)?;
        expect_filled_checks(&rt, alloc, number, &[&last, &all])?;
    }
    Ok(())
}
