//! The hits of append in images of both versions.
use super::*;
use names::{LeastHits, Permission, Record};

// The last record of a table.
fn last_record(table: &RawTable) -> Result<Record, Fail> {
    Ok(*table.records.last().ok_or("no record")?)
}

const WRITE: LeastHits = LeastHits { allow: 1, deny: 0 };

// A rule with `w` holds append, too, so version 1 can hold its tables, and says the same as version 2.
#[test]
fn write_in_both_versions(rt: HostRuntime) -> Result<(), Fail> {
    let alloc = rt.alloc();
    let table = tables_of(alloc, b"profile p { /log w, }")?;
    assert!(rt; table.fits_version_1());
    let want = Record::none()
        .with_hits(Permission::Write, WRITE)
        .with_hits(Permission::Append, WRITE);
    assert_eq!(rt; last_record(&table)?, want);
    let first = to_bytes_v1(alloc, &table)?;
    assert!(rt; first.ends_with(b"\0\0\0\0\x01\0\0\0\0\0\0\0\0\0\0\0\0\0\0\0"));
    assert!(rt; tables_are_equal(&from_bytes(alloc, &first)?, &table));
    let second = to_bytes(alloc, &table)?;
    assert!(rt; second.ends_with(b"\0\0\0\0\x01\0\0\0\0\0\0\0\0\0\0\0\0\0\0\0\x01\0\0\0"));
    assert!(rt; tables_are_equal(&from_bytes(alloc, &second)?, &table));
    Ok(())
}

// By other rules append has other hits than write. Only version 2 can hold these.
fn expect_second(
    rt: &impl Abort,
    alloc: Global,
    text: &[u8],
    write: LeastHits,
    append: LeastHits,
) -> Result<(), Fail> {
    let table = tables_of(alloc, text)?;
    assert!(rt; !table.fits_version_1());
    let want = Record::none()
        .with_hits(Permission::Write, write)
        .with_hits(Permission::Append, append);
    assert_eq!(rt; last_record(&table)?, want);
    let image = to_bytes(alloc, &table)?;
    assert!(rt; image.starts_with(b"PTAB\x02\0\0\0"));
    assert!(rt; tables_are_equal(&from_bytes(alloc, &image)?, &table));
    Ok(())
}

#[test]
fn append_in_version_two(rt: HostRuntime) -> Result<(), Fail> {
    let alloc = rt.alloc();
    let none = LeastHits::NONE;
    let first = LeastHits { allow: 1, deny: 0 };
    let both = LeastHits { allow: 1, deny: 2 };
    let denied = LeastHits { allow: 0, deny: 2 };
    expect_second(&rt, alloc, b"profile p { /log a, }", none, first)?;
    let text = b"profile p { /log w, deny /log a, }";
    expect_second(&rt, alloc, text, first, both)?;
    let text = b"profile p { /log a, deny /log w, }";
    expect_second(&rt, alloc, text, denied, both)
}

// Tables of anyone: each of what version 1 has no room for.
#[test]
fn tables_that_do_not_fit(rt: HostRuntime) -> Result<(), Fail> {
    let alloc = rt.alloc();
    let mut table = from_bytes(alloc, &smallest_image(alloc)?)?;
    assert!(rt; table.fits_version_1());
    table.depth_bound = 1;
    assert!(rt; !table.fits_version_1());
    table.depth_bound = 0;
    table.depth = Vec::from_elem(alloc, 0, 3)?;
    assert!(rt; !table.fits_version_1());
    table.depth = Vec::from_elem(alloc, 1, 2)?;
    assert!(rt; !table.fits_version_1());
    table.depth = Vec::from_elem(alloc, 0, 2)?;
    assert!(rt; table.fits_version_1());
    table
        .records
        .push(Record::none().with_hits(Permission::Write, WRITE))?;
    assert!(rt; !table.fits_version_1());
    let _ = table.records.pop();
    assert!(rt; table.fits_version_1());
    Ok(())
}
