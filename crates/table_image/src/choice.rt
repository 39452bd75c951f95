//! To which state a state leaves the bytes for which it has no cell.
ghost use Rattle.std.specs.Prelude.{◌≡◌, ℕ, ◌<◌, ◌≤◌, length, OnOk};
ghost use Rattle.automaton_rows.specs.Automata.{target};
ghost use Rattle.automaton_rows.specs.Rows.{IsRowFrom, target_in};
ghost use Rattle.table_image.specs.inner.DefaultChoice.{IsChoice};
ghost use Rattle.table_image.specs.inner.PackSteps.{AreOthers, without_cell};

use crate::cells::{commonest, others};
use automaton_rows::{Dfa, TargetRange, head, rest_after};
use std::alloc::AllocError;

// How many of the states numbered just before a state are tried.
const NEAR: u32 = 64;

// The number of bytes that a row has targets for.
const BYTES: u32 = 256;

/// The default of a state, and its depth.
#[derive(Clone, Copy, Debug)]
pub(crate) struct Choice {
    pub(crate) default: u16,
    pub(crate) depth: u16,
}

/// The choice that leaves a state the fewest cells: its commonest target, at depth 0, or one of the 64 states numbered just before
/// it whose depth is below the greatest. Depth 0 goes first among equals, and then the least state. The counts are 0 for each
/// state, before and after.
pub(crate) fn choose(
    dfa: &Dfa,
    state: u32,
    counts: &mut [u32],
    depths: &[u32],
    most_depth: u16,
) -> Choice
    requires state { state < length dfa.now.rows }
    requires counts { length counts.old ≡ length dfa.now.rows }
    requires depths { state ≤ length depths.now }
    ensures long { length counts.new ≡ length counts.old }
    ensures choice { IsChoice dfa.now depths.now state most_depth result }
{
    let row = dfa.row(state);
    let mut best = Choice {
        default: commonest(row, counts),
        depth: 0,
    };
    if most_depth == 0 {
        return best;
    }
    let mut fewest = differing(row, &one_range(best.default), BYTES);
    for near in state.saturating_sub(NEAR)..state {
        let depth = depths[near as usize];
        if depth >= u32::from(most_depth) {
            continue;
        }
        let cells = differing(row, dfa.row(near), fewest);
        if cells < fewest {
            fewest = cells;
            best = Choice {
                default: near as u16,
                depth: depth as u16 + 1,
            };
        }
    }
    best
}

// A row with one target.
fn one_range(target: u16) -> [TargetRange; 1]
    ensures row { IsRowFrom 0 result }
    ensures target { (b : ℕ) → b < 256 → target_in result b ≡ target }
{
    [TargetRange { last: 255, target }]
}

// How many bytes have other targets in another row, if fewer than a limit, and else as many as the limit or more.
fn differing(row: &[TargetRange], other: &[TargetRange], limit: u32) -> u32
    requires row { IsRowFrom 0 row.now }
    requires other { IsRowFrom 0 other.now }
    ensures { result ≤ 256 }
{
    let mut own = row;
    let mut near = other;
    let mut from = 0;
    let mut count = 0;
    loop {
        let range = head(own, from);
        let default = head(near, from);
        let last = range.last.min(default.last);
        if range.target != default.target {
            count += u32::from(last - from) + 1;
        }
        if last == 255 {
            return count;
        }
        if count >= limit {
            return count;
        }
        own = rest_after(own, from, last);
        near = rest_after(near, from, last);
        from = last + 1;
    }
}

/// The bytes of a state that need a cell with this choice, and for each of them its target.
pub(crate) fn others_of(
    bytes: &mut Vec<u8>,
    targets: &mut [u32; 256],
    dfa: &Dfa,
    state: u32,
    choice: Choice,
) -> Result<(), AllocError>
    requires state { state < length dfa.now.rows }
    requires default { choice.default < length dfa.now.rows }
    ensures { OnOk result (AreOthers (target dfa.now state) (without_cell dfa.now choice.default choice.depth) bytes.new.items
        targets.new) }
{
    let row = dfa.row(state);
    if choice.depth == 0 {
        return others(bytes, targets, row, &one_range(choice.default));
    }
    others(bytes, targets, row, dfa.row(u32::from(choice.default)))
}
