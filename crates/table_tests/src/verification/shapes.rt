//! Tables with other counts and lengths, and what comes back.
use super::*;
use test_parts::{copy_of_table, tables_are_equal};

// A list of the smallest table, another length of it, and the expected fault.
type Resized = (List, usize, ImageFault);

fn expect_resized(rt: &impl Abort, alloc: Global, row: &Resized) -> Result<(), Fail> {
    let (list, length, want) = *row;
    let mut table = smallest(alloc)?;
    list_of(&mut table, list).resize(length, 0)?;
    assert!(rt; fault_of(table) == Some(want), "{list:?} {length}");
    Ok(())
}

fn expect_all_resized(rt: &impl Abort, alloc: Global, rows: &[Resized]) -> Result<(), Fail> {
    for row in rows {
        expect_resized(rt, alloc, row)?;
    }
    Ok(())
}

#[test]
fn unequal_lengths(rt: HostRuntime) -> Result<(), Fail> {
    expect_all_resized(
        &rt,
        rt.alloc(),
        &[
            // One state is too few, and so are 255 cells.
            (List::Default, 3, ImageFault::Length),
            (List::Default, 1, ImageFault::Counts),
            (List::Default, 0, ImageFault::Counts),
            (List::Base, 3, ImageFault::Length),
            (List::Base, 1, ImageFault::Length),
            (List::Base, 0, ImageFault::Length),
            (List::Accept, 3, ImageFault::Length),
            (List::Accept, 1, ImageFault::Length),
            (List::Accept, 0, ImageFault::Length),
            (List::Next, 257, ImageFault::Length),
            (List::Next, 255, ImageFault::Counts),
            (List::Next, 0, ImageFault::Counts),
            (List::Check, 257, ImageFault::Length),
            (List::Check, 255, ImageFault::Length),
            (List::Check, 0, ImageFault::Length),
            (List::Depth, 3, ImageFault::Length),
            (List::Depth, 1, ImageFault::Length),
            (List::Depth, 0, ImageFault::Length),
        ],
    )
}

#[test]
fn no_lists(rt: HostRuntime) -> Result<(), Fail> {
    let alloc = rt.alloc();
    let table = RawTable {
        default: Vec::new(alloc),
        base: Vec::new(alloc),
        accept: Vec::new(alloc),
        next: Vec::new(alloc),
        check: Vec::new(alloc),
        records: Vec::new(alloc),
        depth_bound: 0,
        depth: Vec::new(alloc),
    };
    assert_eq!(rt; fault_of(table), Some(ImageFault::Counts));
    let mut table = smallest(alloc)?;
    table.records.clear();
    assert_eq!(rt; fault_of(table), Some(ImageFault::Counts));
    Ok(())
}

// How many states, cells and records there are, and the expected fault, if any.
type Counts = (usize, usize, usize, Option<ImageFault>);

fn expect_counts(rt: &impl Abort, alloc: Global, rows: &[Counts]) -> Result<(), Fail> {
    for (states, cells, records, want) in rows {
        let table = counted(alloc, *states, *cells, *records)?;
        assert!(rt; fault_of(table) == *want, "{states} {cells} {records}");
    }
    Ok(())
}

#[test]
fn counts(rt: HostRuntime) -> Result<(), Fail> {
    expect_counts(
        &rt,
        rt.alloc(),
        &[
            (2, 256, 1, None),
            (1, 256, 1, Some(ImageFault::Counts)),
            (2, 255, 1, Some(ImageFault::Counts)),
            (2, 256, 0, Some(ImageFault::Counts)),
            (65_536, 256, 1, None),
            (65_537, 256, 1, Some(ImageFault::Counts)),
            (2, 16_777_216, 1, None),
            (2, 16_777_217, 1, Some(ImageFault::Counts)),
            (2, 256, 65_536, None),
            (2, 256, 65_537, Some(ImageFault::Counts)),
        ],
    )
}

// Counts are tested before lengths, and lengths before numbers.
#[test]
fn order(rt: HostRuntime) -> Result<(), Fail> {
    let alloc = rt.alloc();
    let mut table = smallest(alloc)?;
    table.records.clear();
    table.check.clear();
    assert_eq!(rt; fault_of(table), Some(ImageFault::Counts));
    let mut table = smallest(alloc)?;
    table.check.clear();
    put(&mut table.default, 0, 2);
    assert_eq!(rt; fault_of(table), Some(ImageFault::Length));
    Ok(())
}

// What can be seen of an accepted table besides what it does. That it is the table that was passed in is in the contract.
fn has_counts_of(verified: &VerifiedTable, table: &RawTable) -> bool {
    verified.states() as usize == table.default.len()
        && verified.cells() as usize == table.next.len()
        && verified.records() as usize == table.records.len()
        && verified.depth_bound() == table.depth_bound
}

// Whether a refused table comes back as it was, or an accepted one has its counts.
fn comes_back(table: RawTable) -> Result<bool, Fail> {
    let copy = copy_of_table(&table)?;
    Ok(match verify(table) {
        Ok(verified) => has_counts_of(&verified, &copy),
        Err((_, refused)) => tables_are_equal(&refused, &copy),
    })
}

// The smallest table comes back with a number put at place 1 of a list, and also with the number appended to the list.
fn expect_back(rt: &impl Abort, alloc: Global, list: List, number: u32) -> Result<(), Fail> {
    let mut table = smallest(alloc)?;
    put(list_of(&mut table, list), 1, number);
    assert!(rt; comes_back(table)?, "{list:?} {number}");
    let mut table = smallest(alloc)?;
    list_of(&mut table, list).push(number)?;
    assert!(rt; comes_back(table)?, "{list:?} and {number}");
    Ok(())
}

fn expect_all_back(rt: &impl Abort, alloc: Global, rows: &[(List, u32)]) -> Result<(), Fail> {
    for (list, number) in rows {
        expect_back(rt, alloc, *list, *number)?;
    }
    Ok(())
}

#[test]
fn tables_come_back(rt: HostRuntime) -> Result<(), Fail> {
    let alloc = rt.alloc();
    assert!(rt; comes_back(smallest(alloc)?)?);
    expect_all_back(
        &rt,
        alloc,
        &[
            (List::Default, 2),
            (List::Base, 1),
            (List::Accept, 1),
            (List::Next, 2),
            (List::Default, 1),
            (List::Next, 1),
            (List::Check, 1),
            (List::Depth, 1),
            (List::Depth, 0),
        ],
    )
}
