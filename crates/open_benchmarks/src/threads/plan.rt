//! What the words ask for.
ghost use Rattle.std.specs.Prelude.{◌≤◌};
ghost use Rattle.tree_row.specs.declared.cells.TheConstants.{MOST_ENTRIES};

use crate::scene::SessionKind;
use std::time::Duration;
use tree_row::MOST_ENTRIES;

/// A tree that has room for `capacity` entries, and the number of opens of each file in each thread.
#[derive(Clone, Copy)]
pub(crate) struct Plan {
    pub capacity: usize,
    pub opens: u64,
    /// How long the keeper or the publisher rests after each change.
    pub rest: Duration,
    /// Which sessions open.
    pub kind: SessionKind,
    /// Whether times are printed.
    pub is_timed: bool,
    ghost fits: { capacity ≤ MOST_ENTRIES },
}

/// The fewest entries that have room for the tree.
const FEWEST_ENTRIES: usize = 128;

/// The plan that the words give.
pub(crate) fn planned(words: &[String]) -> Option<Plan> {
    if words.is_empty() {
        return Some(Plan {
            capacity: FEWEST_ENTRIES,
            opens: 100,
            rest: Duration::ZERO,
            kind: SessionKind::Plain,
            is_timed: false,
        });
    }
    let [capacity, opens, rest, kind] = words else {
        return None;
    };
    let capacity: usize = capacity.as_str().parse().ok()?;
    let opens: u64 = opens.as_str().parse().ok()?;
    let rest: u64 = rest.as_str().parse().ok()?;
    let kind = SessionKind::named(kind.as_bytes())?;
    if capacity < FEWEST_ENTRIES || capacity > MOST_ENTRIES {
        return None;
    }
    Some(Plan {
        capacity,
        opens,
        rest: Duration::from_micros(rest),
        kind,
        is_timed: true,
    })
}
