//! A row in memory.
ghost use Rattle.std.specs.Prelude.{◌≡◌, ◌<◌, ◌≤◌, IfOk, Some, slice_get, slice_index, slice_set};
ghost use Rattle.tree_row.specs.Rows.{row_length};
ghost use Rattle.tree_row.specs.OpeningRow.{opening_row};

use crate::cells::{Cells, MOST_ENTRIES};
use crate::slot::SLOT_LENGTH;
use row_index::index_length;
use std::alloc::{AllocError, Global};
use std::marker::Model;

/// A row all of whose words are known.
///
/// Contracts see it as the pair of its capacity and its cells.
#[derive(Drop)]
pub struct KnownRow {
    capacity: usize,
    cells: Vec<u64>,
}

impl Model for KnownRow {
    ghost use Rattle.std.specs.Prelude.{◌≡◌, ◌≤◌, ℕ, List, length};
    ghost use Rattle.tree_row.specs.Rows.{row_length};
    ghost use Rattle.tree_row.specs.declared.cells.TheConstants.{MOST_ENTRIES};

    ghost Value = { ℕ × List ℕ };

    ghost view = { λ r. (r.capacity, r.cells.items) };

    ghost invariant = { λ r. (r.capacity ≤ MOST_ENTRIES) × (length r.cells.items ≡ row_length r.capacity) };
}

impl KnownRow {
    /// Returns the row of the root alone, with room for `capacity` entries.
    pub fn new(alloc: Global, capacity: usize) -> Result<KnownRow, AllocError>
        requires { capacity ≤ MOST_ENTRIES }
        ensures { IfOk result (λ row. row ≡ (capacity, opening_row capacity)) }
    {
        let length = SLOT_LENGTH * (capacity + 1) + index_length(capacity);
        let mut cells = vec![in alloc; 0; length]?;
        cells[0] = 1;
        cells[1] = 1;
        Ok(KnownRow { capacity, cells })
    }

    /// Returns the maximum number of entries, besides the root.
    pub fn capacity(&self) -> usize
        ensures capacity { result ≡ self.now.0 }
        ensures small { result ≤ MOST_ENTRIES }
    {
        self.capacity
    }

    /// Returns the number of cells.
    pub fn length(&self) -> usize
        ensures { result ≡ row_length self.now.0 }
    {
        self.cells.len()
    }

    /// Returns the word at a place.
    pub fn cell(&self, place: usize) -> u64
        requires { place < row_length self.now.0 }
        ensures word { result ≡ slice_index self.now.1 place }
        ensures there { slice_get self.now.1 place ≡ Some result }
    {
        self.cells[place]
    }

    /// Sets the word at a place.
    pub fn set(&mut self, place: usize, word: u64)
        requires { place < row_length self.old.0 }
        ensures { self.new ≡ (self.old.0, slice_set self.old.1 place word) }
    {
        self.cells[place] = word;
    }
}

impl Cells for KnownRow {
    ghost use Rattle.std.specs.Prelude.{◌≡◌, ℕ, List};

    ghost Kept = { ℕ × List ℕ };

    ghost kept = { λ row. row };

    ghost capacity_of = { λ k. k.0 };

    ghost may = { λ known row. row ≡ known.1 };

    ghost whole = { λ k row. row ≡ k.1 };

    ghost unknown = { λ _. ⊥ };

    ghost whole_may = { λ known row is. (is, λ u. u) };

    fn capacity(&self) -> usize {
        KnownRow::capacity(self)
    }

    fn word(&mut self, place: usize) -> Option<u64> {
        Some(self.cells[place])
    }
}
