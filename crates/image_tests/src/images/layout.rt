//! Which states, cells and records a profile's tables have.
use super::*;
use names::{LeastHits, Permission, Record};

// A cell: the state that owns it, that state's base, the byte, and where it leads.
type Cell = (u8, u8, u8, u32);

// The bases of `states` states, and the nexts and checks of `count` cells: those of these cells, and free ones.
#[derive(Drop)]
struct Cells {
    base: Vec<u32>,
    next: Vec<u32>,
    check: Vec<u32>,
}

fn cells_of(alloc: Global, states: usize, count: u16, cells: &[Cell]) -> Result<Cells, Fail> {
    let mut base = Vec::from_elem(alloc, 0u32, states)?;
    let mut next = Vec::from_elem(alloc, 0u32, usize::from(count))?;
    let mut check = Vec::from_elem(alloc, u32::MAX, usize::from(count))?;
    for (state, first, byte, target) in cells {
        let cell = usize::from(*first) + usize::from(*byte);
        *base.get_mut(usize::from(*state)).ok_or("no such state")? = u32::from(*first);
        *next.get_mut(cell).ok_or("no such cell")? = *target;
        *check.get_mut(cell).ok_or("no such cell")? = u32::from(*state);
    }
    Ok(Cells { base, next, check })
}

fn reading(rule: u16) -> Record {
    let hits = LeastHits {
        allow: rule,
        deny: 0,
    };
    Record::none().with_hits(Permission::Read, hits)
}

// What is expected of the tables of a profile: no state has a depth.
#[derive(Clone, Copy)]
struct Layout<'a> {
    default: &'a [u32],
    count: u16,
    cells: &'a [Cell],
    accept: &'a [u32],
    records: &'a [Record],
}

fn expect_layout(
    rt: &impl Abort,
    alloc: Global,
    text: &[u8],
    want: &Layout<'_>,
) -> Result<(), Fail> {
    let cells = cells_of(alloc, want.default.len(), want.count, want.cells)?;
    let table = tables_of(alloc, text)?;
    let is_as_wanted = table.default.as_slice() == want.default
        && table.base == cells.base
        && table.next == cells.next
        && table.check == cells.check
        && table.accept.as_slice() == want.accept
        && table.records.as_slice() == want.records
        && table.depth_bound == 0
        && table.depth == Vec::from_elem(alloc, 0u32, want.default.len())?;
    assert!(rt; is_as_wanted);
    Ok(())
}

// Each state's commonest target is state 0, and one byte leads elsewhere. Its cell is at base 0, or where another state has that
// cell already at a base after it.
#[test]
fn one_name(rt: HostRuntime) -> Result<(), Fail> {
    let want = Layout {
        default: &[0; 13],
        count: 258,
        cells: &[
            (1, 0, b'/', 2),
            (2, 0, b'e', 3),
            (3, 0, b't', 4),
            (4, 0, b'c', 5),
            (5, 1, b'/', 6),
            (6, 0, b'p', 7),
            (7, 0, b'a', 8),
            (8, 0, b's', 9),
            (9, 2, b's', 10),
            (10, 0, b'w', 11),
            (11, 0, b'd', 12),
        ],
        accept: &[0, 0, 0, 0, 0, 0, 0, 0, 0, 0, 0, 0, 1],
        records: &[Record::none(), reading(1)],
    };
    expect_layout(&rt, rt.alloc(), b"profile p { /etc/passwd r, }", &want)
}

#[test]
fn two_names(rt: HostRuntime) -> Result<(), Fail> {
    let denied = Record::none().with_hits(Permission::Read, LeastHits { allow: 0, deny: 2 });
    let want = Layout {
        default: &[0; 5],
        count: 256,
        cells: &[(1, 0, b'/', 2), (2, 0, b'a', 3), (2, 0, b'b', 4)],
        accept: &[0, 0, 0, 1, 2],
        records: &[Record::none(), reading(1), denied],
    };
    expect_layout(&rt, rt.alloc(), b"profile p { /a r, deny /b r, }", &want)
}

// The states after `/a` and `/ac` differ, but have equal records; that after `/d` comes between them.
#[test]
fn equal_records(rt: HostRuntime) -> Result<(), Fail> {
    let want = Layout {
        default: &[0; 6],
        count: 256,
        cells: &[
            (1, 0, b'/', 2),
            (2, 0, b'a', 3),
            (2, 0, b'd', 4),
            (3, 0, b'c', 5),
        ],
        accept: &[0, 0, 0, 1, 2, 1],
        records: &[Record::none(), reading(1), reading(2)],
    };
    expect_layout(&rt, rt.alloc(), b"profile p { /a{,c} r, /d r, }", &want)
}

// After the slash every byte but 0 and another slash leads to state 3, and from there every byte but 0: that is the default of both.
#[test]
fn defaults(rt: HostRuntime) -> Result<(), Fail> {
    let want = Layout {
        default: &[0, 0, 3, 3],
        count: 257,
        cells: &[(1, 0, b'/', 2), (2, 1, 0, 0), (2, 1, b'/', 0), (3, 0, 0, 0)],
        accept: &[0, 0, 0, 1],
        records: &[Record::none(), reading(1)],
    };
    expect_layout(&rt, rt.alloc(), b"profile p { /** r, }", &want)
}

#[test]
fn no_rules(rt: HostRuntime) -> Result<(), Fail> {
    let want = Layout {
        default: &[0, 0],
        count: 256,
        cells: &[],
        accept: &[0, 0],
        records: &[Record::none()],
    };
    expect_layout(&rt, rt.alloc(), b"profile p { }", &want)
}
