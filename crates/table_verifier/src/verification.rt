//! The test of tables, once and for all names.
ghost use Rattle.std.specs.Prelude.{◌≡◌, ◌<◌, ◌≤◌, ◌↔◌, IsTrue, IfOk, IfErr, MatchOption, length};
ghost use Rattle.tables.specs.Bounds.{most_cells, IsTooDeep, IsWithinLimits, IsShaped, InBounds, IsFirstFault};
ghost use Rattle.tables.specs.Tables.{state_count, table_value};
ghost use Rattle.table_verifier.specs.inner.Firsts.{AreBelow, AreFalling, IsFirstAtLeast, IsFirstTooDeep};

use crate::verified::VerifiedTable;
use tables::{ImageFault, ROW_LENGTH, RawTable, are_counts_in_limits};

/// Accepts tables that no index leaves, unchanged; returns others unchanged with their first fault. All cells are tested, also
/// those that no state owns. Nothing is allocated.
pub fn verify(table: RawTable) -> Result<VerifiedTable, (ImageFault, RawTable)>
    ensures ok { IfOk result (λ verified. (verified ≡ table_value table) × InBounds (table_value table)) }
    ensures err { IfErr result (λ refused. (refused.1 ≡ table) × IsFirstFault (table_value table) refused.0) }
{
    match first_fault(&table) {
        None => Ok(VerifiedTable { table }),
        Some(fault) => Err((fault, table)),
    }
}

// The first fault, if there is one.
fn first_fault(table: &RawTable) -> Option<ImageFault>
    ensures { MatchOption result (InBounds (table_value table.now)) (IsFirstFault (table_value table.now)) }
{
    if !counts_in_limits(table) {
        return Some(ImageFault::Counts);
    }
    if !is_shaped(table) {
        return Some(ImageFault::Length);
    }
    let states = table.default.len() as u32;
    let cells = table.next.len() as u32;
    if let Some(state) = first_at_least(&table.default, states) {
        return Some(ImageFault::Default { state });
    }
    // A base has room for a row after it.
    if let Some(state) = first_at_least(&table.base, cells - (ROW_LENGTH - 1)) {
        return Some(ImageFault::Base { state });
    }
    if let Some(state) = first_at_least(&table.accept, table.records.len() as u32) {
        return Some(ImageFault::Accept { state });
    }
    if let Some(cell) = first_at_least(&table.next, states) {
        return Some(ImageFault::Next { cell });
    }
    match first_too_deep(table) {
        Some(state) => Some(ImageFault::Depth { state }),
        None => None,
    }
}

// The first state whose depth is over the bound, or is over 0 and not over that of its default.
fn first_too_deep(table: &RawTable) -> Option<u32>
    requires limits { IsWithinLimits (table_value table.now) }
    requires shaped { IsShaped (table_value table.now) }
    requires defaults { AreBelow table.now.default.items (state_count (table_value table.now)) }
    ensures { MatchOption result (AreFalling (table_value table.now)) (IsFirstTooDeep (table_value table.now)) }
{
    for (place, depth) in table.depth.iter().enumerate() {
        if is_too_deep(table, place, *depth) {
            return Some(place as u32);
        }
    }
    None
}

// Whether a depth is over the bound, or is over 0 and not over that of the state's default.
fn is_too_deep(table: &RawTable, state: usize, depth: u32) -> bool
    requires shaped { IsShaped (table_value table.now) }
    requires defaults { AreBelow table.now.default.items (state_count (table_value table.now)) }
    requires state { state < state_count (table_value table.now) }
    ensures { IsTrue result ↔ IsTooDeep (table_value table.now) state depth }
{
    if depth > u32::from(table.depth_bound) {
        return true;
    }
    depth > 0 && depth <= table.depth[table.default[state] as usize]
}

// Whether the numbers of states, cells and records are within the limits.
fn counts_in_limits(table: &RawTable) -> bool
    ensures { IsTrue result ↔ IsWithinLimits (table_value table.now) }
{
    are_counts_in_limits(
        table.default.len() as u64,
        table.next.len() as u64,
        table.records.len() as u64,
    )
}

// Whether the tables of each group have one length.
fn is_shaped(table: &RawTable) -> bool
    ensures { IsTrue result ↔ IsShaped (table_value table.now) }
{
    table.base.len() == table.default.len()
        && table.accept.len() == table.default.len()
        && table.check.len() == table.next.len()
        && table.depth.len() == table.default.len()
}

// The first place of a number that isn't below the bound.
fn first_at_least(numbers: &[u32], bound: u32) -> Option<u32>
    requires { length numbers.now ≤ most_cells }
    ensures { MatchOption result (AreBelow numbers.now bound) (IsFirstAtLeast numbers.now bound) }
{
    for (place, number) in numbers.iter().enumerate() {
        if *number >= bound {
            return Some(place as u32);
        }
    }
    None
}
