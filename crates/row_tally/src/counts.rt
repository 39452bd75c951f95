//! The entries of directories, counted.
ghost use Rattle.std.specs.Prelude.{◌≡◌, ◌<◌, ◌≤◌, ◌+◌, ◌^◌, ℕ, length, slice_index};
ghost use Rattle.row_tally.specs.Notes.{entry_in};

use crate::note::Note;
use tree_row::FREE;

/// Counts the entry of a slot with this note, if it holds one, in the slot of its directory.
pub(crate) fn add_entry(counts: &mut [usize], note: Note)
    requires { (d : ℕ) → d < length counts.old → slice_index counts.old d < 2 ^ 32 }
    ensures { (d : ℕ) → d < length counts.old → slice_index counts.new d ≡ slice_index counts.old d + entry_in d note }
{
    if note.kind != FREE && note.parent < counts.len() as u64 {
        counts[note.parent as usize] += 1;
    }
}

/// Stops counting the entry of a slot with this note, if it holds one.
pub(crate) fn remove_entry(counts: &mut [usize], note: Note)
    requires { (d : ℕ) → d < length counts.old → entry_in d note ≤ slice_index counts.old d }
    ensures { (d : ℕ) → d < length counts.old → slice_index counts.new d + entry_in d note ≡ slice_index counts.old d }
{
    if note.kind != FREE && note.parent < counts.len() as u64 {
        counts[note.parent as usize] -= 1;
    }
}
