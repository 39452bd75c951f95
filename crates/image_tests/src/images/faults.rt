//! How faults are numbered and reported.
use super::*;

// A fault with its number, the place that it refers to, and its text.
type Row<'a> = (ImageFault, u16, Option<u32>, &'a str);

fn expect_told(rt: &impl Abort, alloc: Global, row: &Row<'_>) -> Result<(), Fail> {
    let (fault, number, index, text) = row;
    let told = fault.to_string(alloc)?;
    let is_told = fault.number() == *number && fault.index() == *index && told.as_str() == *text;
    assert!(rt; is_told, "{number}");
    Ok(())
}

fn expect_all_told(rt: &impl Abort, alloc: Global, rows: &[Row<'_>]) -> Result<(), Fail> {
    for row in rows {
        expect_told(rt, alloc, row)?;
    }
    Ok(())
}

#[test]
fn faults(rt: HostRuntime) -> Result<(), Fail> {
    let alloc = rt.alloc();
    expect_all_told(
        &rt,
        alloc,
        &[
            (ImageFault::Short, 1, None, "no whole header"),
            (ImageFault::Magic, 2, None, "no image"),
            (ImageFault::Version, 3, None, "another version"),
            (ImageFault::Reserved, 4, None, "reserved bytes in use"),
            (ImageFault::Counts, 5, None, "a count out of its limits"),
            (
                ImageFault::Length,
                6,
                None,
                "another length than the counts tell",
            ),
            (
                ImageFault::Default { state: 7 },
                7,
                Some(7),
                "the default of state 7 is no state",
            ),
            (
                ImageFault::Base { state: 65_535 },
                8,
                Some(65_535),
                "the row of state 65535 ends behind the last cell",
            ),
            (
                ImageFault::Accept { state: 0 },
                9,
                Some(0),
                "the accept of state 0 is no record",
            ),
            (
                ImageFault::Next { cell: 16_777_215 },
                10,
                Some(16_777_215),
                "the next of cell 16777215 is no state",
            ),
            (ImageFault::NoMemory, 11, None, "no memory"),
            (
                ImageFault::Depth { state: 12 },
                12,
                Some(12),
                "the depth of state 12 is over the bound, or not over that of its default",
            ),
        ],
    )
}

#[test]
fn laws(_rt: HostRuntime) {
    bytes_have_one_outcome();
    tables_have_one_outcome();
}
