//! The tally of a row.
ghost use Rattle.std.specs.Prelude.{◌≡◌, ◌<◌, ◌≤◌, ◌+◌, ℕ, List, IfOk, length, slice_set};
ghost use Rattle.tree_row.specs.Slots.{slot_at};
ghost use Rattle.tree_row.specs.OpeningRow.{opening_row};
ghost use Rattle.tree_row.specs.Questions.{Tells, FreeIn, IsEntryOf};
ghost use Rattle.row_tally.specs.Tally.{IsTallyOf};

use crate::counts::{add_entry, remove_entry};
use crate::free_slots::FreeSlots;
use crate::note::Note;
use names::NoMemory;
use std::alloc::Global;
use std::marker::Model;
use tree_row::{DIRECTORY, FREE, KIND, MOST_ENTRIES, PARENT, SLOT_LENGTH};

/// What is known of a row without reading its slots: which of them are free, and how many entries each directory has.
///
/// Contracts see it as the notes of the slots, the root's first.
#[derive(Drop)]
pub struct RowTally {
    notes: Vec<Note>,
    // For each slot the number of slots whose entries are in its directory.
    counts: Vec<usize>,
    free: FreeSlots,
}

impl Model for RowTally {
    ghost use Rattle.std.specs.Prelude.{List};
    ghost use Rattle.row_tally.specs.declared.note.Note.{Note};
    ghost use Rattle.row_tally.specs.Notes.{AreCounted};

    ghost Value = { List Note };

    ghost view = { λ t. t.notes.items };

    ghost invariant = { λ t. AreCounted t.notes.items t.counts.items t.free };
}

impl RowTally {
    /// Returns the tally of the initial row with room for `capacity` entries besides the root. Only this allocates.
    pub fn new(alloc: Global, capacity: usize) -> Result<RowTally, NoMemory>
        requires { capacity ≤ MOST_ENTRIES }
        ensures { IfOk result (IsTallyOf capacity (opening_row capacity)) }
    {
        let slots = capacity + 1;
        let free_note = Note {
            kind: FREE,
            parent: 0,
        };
        let Ok(mut notes) = vec![in alloc; free_note; slots] else {
            return Err(NoMemory);
        };
        let Ok(counts) = vec![in alloc; 0usize; slots] else {
            return Err(NoMemory);
        };
        let free = FreeSlots::past_root(alloc, slots)?;
        notes[0] = Note {
            kind: DIRECTORY,
            parent: 0,
        };
        Ok(RowTally {
            notes,
            counts,
            free,
        })
    }

    /// Returns the maximum number of entries besides the root.
    pub fn capacity(&self) -> usize
        ensures capacity { result + 1 ≡ length self.now }
        ensures small { result ≤ MOST_ENTRIES }
    {
        self.notes.len() - 1
    }

    /// Follows the row, whose cell at a place is set to a word. Most cells change nothing here, those past the slots among them.
    pub fn set(&mut self, place: usize, word: u64)
        ensures long { length self.new ≡ length self.old }
        ensures follows { (capacity : ℕ) (row : List ℕ) → place < length row → IsTallyOf capacity row self.old →
            IsTallyOf capacity (slice_set row place word) self.new }
    {
        let slot = place / SLOT_LENGTH;
        if slot >= self.notes.len() {
            return;
        }
        let mut note = self.notes[slot];
        match place % SLOT_LENGTH {
            KIND => note.kind = word,
            PARENT => note.parent = word,
            _ => return,
        }
        self.put_note(slot, note);
    }

    // Notes what a slot's cells are now. The root's slot is never free, and it holds no directory's entry.
    fn put_note(&mut self, slot: usize, note: Note)
        requires { slot < length self.old }
        ensures { self.new ≡ slice_set self.old slot note }
    {
        let old = self.notes[slot];
        self.notes[slot] = note;
        if slot == 0 {
            return;
        }
        remove_entry(&mut self.counts, old);
        add_entry(&mut self.counts, note);
        self.free.mark(slot, note.kind == FREE);
    }

    /// Returns the first free slot, if one is free.
    pub fn first_free(&self) -> Option<usize>
        ensures { (capacity : ℕ) (row : List ℕ) → IsTallyOf capacity row self.now → FreeIn (capacity + 1) (slot_at row) result }
    {
        self.free.first()
    }

    /// Whether no slot past the root's holds an entry of the directory of a slot.
    pub fn is_empty(&self, directory: usize) -> bool
        requires { directory < length self.now }
        ensures { (capacity : ℕ) (row : List ℕ) → IsTallyOf capacity row self.now →
            Tells result ((s : ℕ) → ¬ (IsEntryOf (capacity + 1) (slot_at row) directory s)) }
    {
        self.counts[directory] == 0
    }
}
