//! Tables with a number out of its bounds.
use super::*;
use test_parts::copy_of_table;

// The fault at a place of a list.
fn fault_at(list: List, place: u32) -> Option<ImageFault> {
    match list {
        List::Default => Some(ImageFault::Default { state: place }),
        List::Base => Some(ImageFault::Base { state: place }),
        List::Accept => Some(ImageFault::Accept { state: place }),
        List::Next => Some(ImageFault::Next { cell: place }),
        List::Depth => Some(ImageFault::Depth { state: place }),
        List::Check => None,
    }
}

// The table with another number at a place of a list.
fn with(mut table: RawTable, list: List, place: u32, number: u32) -> RawTable {
    put(list_of(&mut table, list), place as usize, number);
    table
}

// Three states and two rows. State 0 is dead; state 1 has the first row, from which `a` leads to state 2, and state 2 the
// second.
fn two_rows(alloc: Global) -> Result<RawTable, Fail> {
    let mut table = counted(alloc, 3, 512, 1)?;
    put(&mut table.base, 2, 256);
    put(&mut table.next, 97, 2);
    table.check.fill(1);
    for cell in 256..512 {
        put(&mut table.next, cell, 1);
        put(&mut table.check, cell, 2);
    }
    Ok(table)
}

// Whether the table with another number at a place of a list is judged as expected: with this fault, or with none.
fn is_told(
    table: &RawTable,
    list: List,
    place: u32,
    number: u32,
    want: Option<ImageFault>,
) -> Result<bool, Fail> {
    let other = with(copy_of_table(table)?, list, place, number);
    Ok(fault_of(other) == want)
}

// The first place of a list at which this number isn't judged as expected.
fn first_told_otherwise(
    table: &RawTable,
    list: List,
    number: u32,
    is_refused: bool,
) -> Result<Option<u32>, Fail> {
    let places = match list {
        List::Next | List::Check => table.next.len(),
        _ => table.default.len(),
    };
    for place in 0..1024u32 {
        if place as usize >= places {
            break;
        }
        let want = if is_refused {
            fault_at(list, place)
        } else {
            None
        };
        if !is_told(table, list, place, number, want)? {
            return Ok(Some(place));
        }
    }
    Ok(None)
}

fn expect_told(
    rt: &impl Abort,
    table: &RawTable,
    list: List,
    number: u32,
    is_refused: bool,
) -> Result<(), Fail> {
    let first = first_told_otherwise(table, list, number, is_refused)?;
    assert!(rt; first.is_none(), "{list:?} {number}");
    Ok(())
}

// At each place of a list a number is refused from a bound on, and not below it.
fn expect_bound(rt: &impl Abort, table: &RawTable, list: List, bound: u32) -> Result<(), Fail> {
    for number in [bound, 0x8000_0000, u32::MAX - 254, u32::MAX] {
        expect_told(rt, table, list, number, true)?;
    }
    expect_told(rt, table, list, bound.saturating_sub(1), false)
}

fn expect_bounds(rt: &impl Abort, table: &RawTable, rows: &[(List, u32)]) -> Result<(), Fail> {
    for (list, bound) in rows {
        expect_bound(rt, table, *list, *bound)?;
    }
    Ok(())
}

#[test]
fn numbers_out_of_bounds(rt: HostRuntime) -> Result<(), Fail> {
    let short = smallest(rt.alloc())?;
    expect_bounds(
        &rt,
        &short,
        &[
            (List::Default, 2),
            (List::Base, 1),
            (List::Accept, 1),
            (List::Next, 2),
            // No depth may be over the bound, which is 0.
            (List::Depth, 1),
        ],
    )?;
    let long = two_rows(rt.alloc())?;
    expect_bounds(
        &rt,
        &long,
        &[
            (List::Default, 3),
            (List::Base, 257),
            (List::Accept, 1),
            (List::Next, 3),
            (List::Depth, 1),
        ],
    )
}

fn expect_any_check(rt: &impl Abort, table: &RawTable, numbers: &[u32]) -> Result<(), Fail> {
    for number in numbers {
        expect_told(rt, table, List::Check, *number, false)?;
    }
    Ok(())
}

// Whatever the checks are, there is no fault.
#[test]
fn checks_are_free(rt: HostRuntime) -> Result<(), Fail> {
    let table = two_rows(rt.alloc())?;
    expect_any_check(&rt, &table, &[0, 1, 3, 1 << 16, u32::MAX])
}

// The earlier of two faults and its place, the later one and its place.
type Faults = (List, u32, List, u32);

// The later fault is reported where it is alone, and the earlier one where both are.
fn expect_first(rt: &impl Abort, alloc: Global, row: &Faults) -> Result<(), Fail> {
    let (first, first_place, later, later_place) = *row;
    let table = with(smallest(alloc)?, later, later_place, 2);
    let want = fault_at(first, first_place);
    let is_first = is_told(&table, first, first_place, u32::MAX, want)?;
    let is_alone = fault_of(table) == fault_at(later, later_place);
    assert!(rt; is_first && is_alone, "{first:?} and {later:?}");
    Ok(())
}

fn expect_all_first(rt: &impl Abort, alloc: Global, rows: &[Faults]) -> Result<(), Fail> {
    for row in rows {
        expect_first(rt, alloc, row)?;
    }
    Ok(())
}

#[test]
fn first_faults(rt: HostRuntime) -> Result<(), Fail> {
    expect_all_first(
        &rt,
        rt.alloc(),
        &[
            // Kinds that follow one another, the later fault at the lesser place.
            (List::Default, 1, List::Base, 0),
            (List::Base, 1, List::Accept, 0),
            (List::Accept, 1, List::Next, 0),
            (List::Next, 255, List::Depth, 0),
            (List::Default, 1, List::Next, 0),
            (List::Default, 1, List::Depth, 0),
            // One kind twice.
            (List::Default, 0, List::Default, 1),
            (List::Base, 0, List::Base, 1),
            (List::Accept, 0, List::Accept, 1),
            (List::Next, 7, List::Next, 255),
            (List::Next, 254, List::Next, 255),
            (List::Depth, 0, List::Depth, 1),
        ],
    )
}
