//! Where the index of a row is.
ghost use Rattle.std.specs.Prelude.{◌≤◌};
ghost use Rattle.tree_row.specs.Search.{IsIndexOf};

use crate::cells::MOST_ENTRIES;
use crate::slot::SLOT_LENGTH;
use row_index::index_length;

/// The cells of a row's index.
#[derive(Clone, Copy, Debug, PartialEq, Eq)]
pub struct RowIndex {
    /// The cell at which it begins: after the last slot.
    pub base: usize,
    /// The number of its cells, a power of two.
    pub length: usize,
}

/// Returns where the index is in a row that has room for this many entries besides the root.
pub fn index_of(capacity: usize) -> RowIndex
    requires { capacity ≤ MOST_ENTRIES }
    ensures { IsIndexOf capacity result }
{
    RowIndex {
        base: SLOT_LENGTH * (capacity + 1),
        length: index_length(capacity),
    }
}
