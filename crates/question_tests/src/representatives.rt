//! Names that represent all names, and their least hits.
use crate::rules::compiled;
use names::{Permission, Record};
use profile_questions::{Comparison, Records};
use std::alloc::Global;
use std::process::Abort;
use std::test::Fail;

// The least hits of a representative.
fn records_of(alloc: Global, comparison: &Comparison<'_>, name: &[u8]) -> Result<Records, Fail> {
    for index in 0..comparison.len() {
        if comparison.name(alloc, index)?.as_slice() == name {
            return Ok(comparison.records(index).ok_or("records")?);
        }
    }
    Err(Fail::from("no such representative"))
}

// Which rules allow that it is read and written.
fn allowing(record: &Record) -> (u16, u16) {
    (
        record.of(Permission::Read).allow,
        record.of(Permission::Write).allow,
    )
}

// Names are of four kinds: `/`, `/a`, `/b`, and those that no rule matches, whatever follows them.
#[test]
fn names_of_two_rules(rt: HostRuntime) -> Result<(), Fail> {
    let alloc = rt.alloc();
    let first = compiled(alloc, b"/a r, /b w,")?;
    let second = compiled(alloc, b"")?;
    let third = compiled(alloc, b"/b rw,")?;
    assert!(rt; first.profile().rules().len() == 2);
    let comparison = Comparison::of(alloc, &first, &second, &third)?;
    assert!(rt; comparison.len() == 4);
    assert!(rt; comparison.records(4).is_none());
    let rows: [(&[u8], (u16, u16), (u16, u16)); 3] = [
        (b"/", (0, 0), (0, 0)),
        (b"/a", (1, 0), (0, 0)),
        (b"/b", (0, 2), (1, 1)),
    ];
    for (name, one, three) in rows {
        let records = records_of(alloc, &comparison, name)?;
        assert!(rt; allowing(&records.first) == one);
        assert!(rt; allowing(&records.second) == (0, 0));
        assert!(rt; allowing(&records.third) == three);
    }
    Ok(())
}
