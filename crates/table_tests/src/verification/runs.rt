//! Look-ups in strangers' tables, against rows computed by hand.
ghost use Rattle.std.specs.Prelude.{◌≡◌, ◌+◌, ◌^◌, ◌<◌};
ghost use Rattle.tables.specs.Tables.{state_count};

use super::*;
use names::{LeastHits, Permission};

// Two states that share one row. State 1 owns the cells of `a` and of byte 255, and state 0 those of `b` and of byte 0; no
// state owns another one. What isn't owned leads from state 0 to 1, and from 1 to 0.
fn shared(alloc: Global) -> Result<RawTable, Fail> {
    let mut table = smallest(alloc)?;
    put(&mut table.default, 0, 1);
    put(&mut table.accept, 1, 1);
    put_all(&mut table.check, &[(97, 1), (255, 1), (98, 0), (0, 0)]);
    // The last one is the next of a free cell, which is never followed from state 1.
    put_all(
        &mut table.next,
        &[(97, 1), (255, 1), (98, 1), (0, 0), (99, 1)],
    );
    let hits = LeastHits { allow: 3, deny: 5 };
    table
        .records
        .push(Record::none().with_hits(Permission::Write, hits))?;
    Ok(table)
}

// The state after a state and a byte, in a table whose states have no depth: one step, of one look-up.
fn look_up(
    rt: &impl Abort,
    table: &VerifiedTable,
    state: State,
    byte: u8,
    steps: &mut Steps,
) -> State
    requires state { state < state_count table.now }
    requires steps { steps.old + 1 < 2 ^ 64 }
    ensures there { result < state_count table.now }
    ensures steps { steps.new ≡ steps.old + 1 }
{
    assert_eq!(rt; table.depth_bound(), 0);
    let mut lookups = LookUps::new();
    let next = table.look_up(state, byte, steps, &mut lookups);
    assert_eq!(rt; lookups.count(), 1);
    next
}

// The targets of state 0 in the shared row.
fn from_zero(byte: u8) -> State {
    match byte {
        0 => 0,
        _ => 1,
    }
}

// The targets of state 1 in the shared row.
fn from_one(byte: u8) -> State {
    match byte {
        b'a' | 255 => 1,
        _ => 0,
    }
}

// One step by a byte from state 1, one to state 0, and one by the byte from there.
fn expect_shared(rt: &impl Abort, table: &VerifiedTable, byte: u8) {
    let mut steps = Steps::new();
    let one = look_up(rt, table, table.start(), byte, &mut steps);
    let is_one_step = steps.count() == 1;
    let dead = look_up(rt, table, table.start(), b'c', &mut steps);
    let zero = look_up(rt, table, dead, byte, &mut steps);
    let is_right = one == from_one(byte) && dead == 0 && zero == from_zero(byte);
    assert!(rt; is_right && is_one_step && steps.count() == 3, "{byte}");
}

#[test]
fn shared_row(rt: HostRuntime) -> Result<(), Fail> {
    let table = verified(shared(rt.alloc())?)?;
    assert_eq!(rt; (table.states(), table.start()), (2, 1));
    for byte in 0..=255u8 {
        expect_shared(&rt, &table, byte);
    }
    Ok(())
}

#[test]
fn records(rt: HostRuntime) -> Result<(), Fail> {
    let table = verified(shared(rt.alloc())?)?;
    let mut steps = Steps::new();
    let zero = look_up(&rt, &table, table.start(), b'b', &mut steps);
    assert_eq!(rt; table.record_of(zero), Record::none());
    let record = table.record_of(table.start());
    assert_eq!(rt;
        record.of(Permission::Write),
        LeastHits { allow: 3, deny: 5 }
    );
    assert_eq!(rt; record.of(Permission::Read), LeastHits::NONE);
    Ok(())
}

// Two steps by a byte lead from state 1 to itself.
fn expect_to_itself(rt: &impl Abort, table: &VerifiedTable, byte: u8) {
    let mut steps = Steps::new();
    let one = look_up(rt, table, table.start(), byte, &mut steps);
    let again = look_up(rt, table, one, byte, &mut steps);
    assert!(rt; one == 1 && again == 1 && steps.count() == 2, "{byte}");
}

// Each state leads to itself, by every byte: state 1 by its default, state 0 by its cells.
#[test]
fn states_that_lead_to_themselves(rt: HostRuntime) -> Result<(), Fail> {
    let mut table = smallest(rt.alloc())?;
    put(&mut table.default, 1, 1);
    table.check.fill(0);
    let table = verified(table)?;
    for byte in 0..=255u8 {
        expect_to_itself(&rt, &table, byte);
    }
    Ok(())
}

// Rows that overlap: state 1 has its cell of a byte where state 2 has that of the byte before.
fn overlapping(alloc: Global) -> Result<RawTable, Fail> {
    let mut table = counted(alloc, 3, 257, 1)?;
    table.check.fill(u32::MAX);
    put(&mut table.default, 2, 1);
    put(&mut table.base, 2, 1);
    put_all(&mut table.check, &[(98, 1), (99, 2), (256, 2)]);
    put_all(&mut table.next, &[(98, 2), (99, 0), (256, 1)]);
    Ok(table)
}

#[test]
fn overlapping_rows(rt: HostRuntime) -> Result<(), Fail> {
    let table = verified(overlapping(rt.alloc())?)?;
    let mut steps = Steps::new();
    let two = look_up(&rt, &table, table.start(), b'b', &mut steps);
    // The cell of `a` in the row of state 2 is state 1's, and its own cell is that of `b`.
    let found = [
        look_up(&rt, &table, two, b'a', &mut steps),
        look_up(&rt, &table, two, b'b', &mut steps),
        look_up(&rt, &table, two, 255, &mut steps),
        look_up(&rt, &table, table.start(), b'c', &mut steps),
    ];
    assert!(rt; two == 2 && found == [1, 0, 1, 0] && steps.count() == 5);
    Ok(())
}

#[test]
fn tables_run(rt: HostRuntime) -> Result<(), Fail> {
    tables_in_bounds_run();
    let table = verified(smallest(rt.alloc())?)?;
    let mut steps = Steps::new();
    assert_eq!(rt; steps.count(), 0);
    let _ = look_up(&rt, &table, table.start(), 0, &mut steps);
    assert_eq!(rt; steps.count(), 1);
    Ok(())
}
