//! The default of a row, and its cells.
ghost use Rattle.std.specs.Prelude.{◌≡◌, ◌≢◌, ◌⊎◌, ℕ, List, ◌+◌, ◌*◌, ◌<◌, ◌≤◌, IfOk, OnOk, Contains};
ghost use Rattle.std.specs.Prelude.{length, slice_index_or};
ghost use Rattle.table_image.specs.inner.TakenCells.{is_taken, is_blocked};
ghost use Rattle.automaton_rows.specs.Rows.{IsRowFrom, ends_at, target_in};
ghost use Rattle.automaton_rows.specs.declared.range.TargetRange.{TargetRange};
ghost use Rattle.table_image.specs.inner.PackSteps.{AreOthers, IsWalk, IsWritten};

use crate::taken::Taken;
use automaton_rows::{TargetRange, head, rest_after};
use std::alloc::{AllocError, Global};

/// The target that the most bytes of a row have, the least state among equals. The counts are 0 for each state, before and after.
pub(crate) fn commonest(row: &[TargetRange], counts: &mut [u32]) -> u16
    requires row { IsWalk row.now (length counts.old) 0 }
    ensures there { result < length counts.old }
    ensures long { length counts.new ≡ length counts.old }
{
    count(row, counts);
    let best = most(row, counts);
    clear(row, counts);
    best
}

// Counts the bytes of each target.
fn count(row: &[TargetRange], counts: &mut [u32])
    requires row { IsWalk row.now (length counts.old) 0 }
    ensures long { length counts.new ≡ length counts.old }
{
    let mut rest = row;
    let mut from = 0;
    loop {
        let range = step(rest, counts.len(), from);
        let target = usize::from(range.target);
        counts[target] = counts[target].saturating_add(u32::from(range.last - from) + 1);
        if range.last == 255 {
            return;
        }
        rest = rest_after(rest, from, range.last);
        from = range.last + 1;
    }
}

// The target with the greatest count, the least among equals.
fn most(row: &[TargetRange], counts: &[u32]) -> u16
    requires row { IsWalk row.now (length counts.now) 0 }
    ensures { result < length counts.now }
{
    let mut best = step(row, counts.len(), 0).target;
    let mut rest = row;
    let mut from = 0;
    loop {
        let range = step(rest, counts.len(), from);
        best = greater(counts, best, range.target);
        if range.last == 255 {
            return best;
        }
        rest = rest_after(rest, from, range.last);
        from = range.last + 1;
    }
}

// Which of two targets has the greater count, the least if both have the same.
fn greater(counts: &[u32], best: u16, target: u16) -> u16
    requires best { best < length counts.now }
    requires target { target < length counts.now }
    ensures { result < length counts.now }
{
    let most = counts[usize::from(best)];
    let count = counts[usize::from(target)];
    if count > most {
        return target;
    }
    if count == most && target < best {
        return target;
    }
    best
}

// Sets the counts of the targets back to 0.
fn clear(row: &[TargetRange], counts: &mut [u32])
    requires row { IsWalk row.now (length counts.old) 0 }
    ensures long { length counts.new ≡ length counts.old }
{
    let mut rest = row;
    let mut from = 0;
    loop {
        let range = step(rest, counts.len(), from);
        counts[usize::from(range.target)] = 0;
        if range.last == 255 {
            return;
        }
        rest = rest_after(rest, from, range.last);
        from = range.last + 1;
    }
}

// The first range of the rest of a row. Its target is below the bound.
fn step(rest: &[TargetRange], bound: usize, from: u8) -> TargetRange
    requires walk { IsWalk rest.now bound from }
    ensures here { from ≤ result.last }
    ensures within { result.last ≤ ends_at rest.now }
    ensures target { result.target < bound }
    ensures more { result.last < 255 → (next : List TargetRange) → IsRowFrom (result.last + 1) next →
        ((b : ℕ) → result.last < b → target_in next b ≡ target_in rest.now b) → IsWalk next bound (result.last + 1) }
{
    head(rest, from)
}

/// The bytes of a row that need a cell: those whose target isn't the one without a cell, which another row has. For each of them
/// `targets` has its target.
pub(crate) fn others(
    bytes: &mut Vec<u8>,
    targets: &mut [u32; 256],
    row: &[TargetRange],
    without: &[TargetRange],
) -> Result<(), AllocError>
    requires row { IsRowFrom 0 row.now }
    requires without { IsRowFrom 0 without.now }
    ensures { OnOk result (AreOthers (target_in row.now) (target_in without.now) bytes.new.items targets.new) }
{
    bytes.clear();
    let mut own = row;
    let mut other = without;
    let mut from = 0;
    loop {
        let range = head(own, from);
        let default = head(other, from);
        let last = range.last.min(default.last);
        push_range(bytes, targets, from, last, range.target, default.target)?;
        if last == 255 {
            return Ok(());
        }
        own = rest_after(own, from, last);
        other = rest_after(other, from, last);
        from = last + 1;
    }
}

// Adds the bytes from the first to the last, unless their target is the one without a cell.
fn push_range(
    bytes: &mut Vec<u8>,
    targets: &mut [u32; 256],
    first: u8,
    last: u8,
    target: u16,
    without: u16,
) -> Result<(), AllocError>
    requires { first ≤ last }
    ensures kept { OnOk result ((b : ℕ) → Contains bytes.old.items b → Contains bytes.new.items b) }
    ensures added { OnOk result ((b : ℕ) → Contains bytes.new.items b →
        Contains bytes.old.items b ⊎ ((first ≤ b) × (b ≤ last) × (target ≢ without))) }
    ensures within { OnOk result (target ≢ without → (b : ℕ) → first ≤ b → b ≤ last →
        Contains bytes.new.items b × (slice_index_or targets.new b 0 ≡ target)) }
    ensures outside { OnOk result ((b : ℕ) → (b < first) ⊎ (last < b) →
        slice_index_or targets.new b 0 ≡ slice_index_or targets.old b 0) }
{
    if target == without {
        return Ok(());
    }
    for byte in usize::from(first)..usize::from(last) + 1 {
        bytes.push(byte as u8)?;
        targets[byte] = u32::from(target);
    }
    Ok(())
}

/// Writes the cells of a row.
pub(crate) fn write_cells(
    next: &mut [u32],
    check: &mut [u32],
    taken: &mut Taken,
    targets: &[u32; 256],
    bytes: &[u8],
    base: usize,
    state: u32,
)
    requires below { (b : ℕ) → Contains bytes.now b → b < 256 }
    requires next { base + 255 < length next.old }
    requires check { base + 255 < length check.old }
    requires room { base + 255 < 64 * length taken.old.words.items }
    ensures { IsWritten next.old check.old taken.old next.new check.new taken.new targets.now bytes.now base state }
{
    for byte in bytes {
        let cell = base + usize::from(*byte);
        next[cell] = targets[usize::from(*byte)];
        check[cell] = state;
        taken.take(cell);
    }
}
