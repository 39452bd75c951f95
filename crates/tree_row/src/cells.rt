//! Cells by place.
ghost use Rattle.std.specs.Prelude.{◌≡◌, ◌<◌, ◌≤◌, ◌+◌, ℕ, List, IfSome, IfNone, slice_index};
ghost use Rattle.tree_row.specs.Rows.{row_length};
ghost use Rattle.tree_row.specs.Worlds.{Fewer, Reads};
ghost use Rattle.tree_row.specs.Questions.{NoneFreeBefore, TellsChildless};
ghost use Rattle.tree_row.specs.Search.{IsIndexOf};

use crate::index::{RowIndex, index_of};

/// The maximum number of entries, besides the root, that a row may have room for.
pub const MOST_ENTRIES: usize = 16384;

/// The cells of a row, each read by its place, or unknown. Place 0 is that of the first cell of the root's slot.
pub trait Cells {
    // The part that reading doesn't change.
    ghost Kept: { Type 0 };

    ghost kept: { Self → Kept };

    // The maximum number of entries besides the root.
    ghost capacity_of: { Kept → ℕ };

    // The rows that may be the one that is read.
    ghost may: { Self → List ℕ → Type 0 };

    // Every word is known, and this is the row.
    ghost whole: { Kept → List ℕ → Type 0 };

    // A requested word isn't known.
    ghost unknown: { Self → Type 0 };

    /// Returns the maximum number of entries besides the root.
    fn capacity(&self) -> usize
        ensures capacity { result ≡ capacity_of (kept self.now) }
        ensures small { result ≤ MOST_ENTRIES };

    /// Returns where the row's index is. Nothing is read.
    fn index(&self) -> RowIndex
        ensures { IsIndexOf (capacity_of (kept self.now)) result }
    {
        index_of(self.capacity())
    }

    /// Returns the word at a place, if it is known.
    fn word(&mut self, place: usize) -> Option<u64>
        requires { place < row_length (capacity_of (kept self.old)) }
        ensures kept { kept self.new ≡ kept self.old }
        ensures fewer { Fewer (may self.old) (may self.new) }
        ensures some { IfSome result (λ n. Reads (may self.new) (λ row. slice_index row place) n) }
        ensures none { IfNone result (unknown self.new) };

    /// Returns a slot past the root's before which no slot is free: where the search for a free one begins. Nothing is read.
    fn first_candidate(&self) -> usize
        ensures past { 0 < result }
        ensures none_before { NoneFreeBefore (capacity_of (kept self.now)) (may self.now) result }
    {
        1
    }

    /// Returns whether the directory of a slot has no entry, if this is known without reading the slots.
    fn known_childless(&self, directory: usize) -> Option<bool>
        requires { directory < capacity_of (kept self.now) + 1 }
        ensures { IfSome result (TellsChildless (capacity_of (kept self.now)) (may self.now) directory) }
    {
        None
    }

    // Where every word is known, nothing is unknown, and the row may be the one that is read.
    ghost whole_may: { (cells : Self) (row : List ℕ) → whole (kept cells) row → may cells row × (¬ (unknown cells)) };
}
