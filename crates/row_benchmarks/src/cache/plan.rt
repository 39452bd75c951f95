//! What the words ask for.
ghost use Rattle.std.specs.Prelude.{◌≤◌};
ghost use Rattle.tree_row.specs.declared.cells.TheConstants.{MOST_ENTRIES};

use crate::trees::{FEWEST_ENTRIES, numbered_files};
use tree_row::MOST_ENTRIES;

/// What is done in a tree that has room for `capacity` entries, and `entries` of them.
#[derive(Clone, Copy)]
pub(crate) struct Plan {
    pub capacity: usize,
    pub entries: usize,
    /// The number of changes of each kind.
    pub changes: u64,
    /// The number of attempts of each walk in each thread.
    pub attempts: u64,
    /// The number of changes that are drawn.
    pub drawn: u64,
    /// Whether times are printed.
    pub is_timed: bool,
    ghost fits: { capacity ≤ MOST_ENTRIES },
}

// With no words.
const SMALLEST: Sizes = Sizes {
    capacity: FEWEST_ENTRIES,
    tenths: 5,
    changes: 3,
    attempts: 200,
    drawn: 200,
};

// What the words say, unchecked.
#[derive(Clone, Copy)]
struct Sizes {
    capacity: usize,
    tenths: usize,
    changes: u64,
    attempts: u64,
    drawn: u64,
}

/// The plan that the words give.
pub(crate) fn planned(words: &[String]) -> Option<Plan> {
    if words.is_empty() {
        checked(SMALLEST, false)
    } else {
        checked(sizes_of(words)?, true)
    }
}

fn sizes_of(words: &[String]) -> Option<Sizes> {
    let [capacity, tenths, changes, attempts, drawn] = words else {
        return None;
    };
    Some(Sizes {
        capacity: capacity.as_str().parse().ok()?,
        tenths: tenths.as_str().parse().ok()?,
        changes: changes.as_str().parse().ok()?,
        attempts: attempts.as_str().parse().ok()?,
        drawn: drawn.as_str().parse().ok()?,
    })
}

// None if a row can't have that capacity, or the tree has no file with a numbered name, or no room for what is changed.
fn checked(sizes: Sizes, is_timed: bool) -> Option<Plan> {
    let Sizes {
        capacity,
        tenths,
        changes,
        attempts,
        drawn,
    } = sizes;
    if capacity < FEWEST_ENTRIES || capacity > MOST_ENTRIES {
        return None;
    }
    let entries = capacity.saturating_mul(tenths) / 10;
    if tenths > 9 || numbered_files(entries) == 0 {
        return None;
    }
    Some(Plan {
        capacity,
        entries,
        changes,
        attempts,
        drawn,
        is_timed,
    })
}
