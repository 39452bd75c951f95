//! What the words ask for.
ghost use Rattle.std.specs.Prelude.{◌≤◌};
ghost use Rattle.tree_row.specs.declared.cells.TheConstants.{MOST_ENTRIES};

use crate::trees::FEWEST_ENTRIES;
use tree_row::MOST_ENTRIES;

/// A piece of work, done `count` times in a tree that has room for `capacity` entries.
#[derive(Clone, Copy)]
pub(crate) struct Plan<'w> {
    pub work: &'w str,
    pub capacity: usize,
    pub count: usize,
    /// Whether the time is printed.
    pub is_timed: bool,
    ghost fits: { capacity ≤ MOST_ENTRIES },
}

/// The plan that the words give.
pub(crate) fn planned(words: &[String]) -> Option<Plan<'_>> {
    if words.is_empty() {
        return Some(Plan {
            work: "mkdir",
            capacity: FEWEST_ENTRIES,
            count: 3,
            is_timed: false,
        });
    }
    if words.len() < 3 || words.len() > 4 {
        return None;
    }
    let capacity: usize = words[1].as_str().parse().ok()?;
    let count: usize = words[2].as_str().parse().ok()?;
    if capacity < FEWEST_ENTRIES || capacity > MOST_ENTRIES {
        return None;
    }
    Some(Plan {
        work: words[0].as_str(),
        capacity,
        count,
        is_timed: words.len() == 4,
    })
}
