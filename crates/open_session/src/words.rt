//! The words that a walk has read.
ghost use Rattle.std.specs.Prelude.{◌≡◌, ◌≤◌, [], ◌∷◌, length, OnOk, OnErr};
ghost use Rattle.open_session.specs.Words.{word_in, IsUnread};

use directory_tree::History;
use row_rule::Cell;
use std::alloc::{AllocError, Global};
use std::collections::BTreeMap;
use std::marker::Model;
use tree_row::MOST_ENTRIES;

/// The words that a walk has read of a row, none of them twice.
///
/// Its view is the pair of the row's capacity and the words with their places, newest first.
#[derive(Drop)]
pub struct WalkWords {
    capacity: usize,
    words: BTreeMap<usize, u64>,
    reads: History<Cell>,
}

impl Model for WalkWords {
    ghost use Rattle.std.specs.Prelude.{ℕ, List, reverse};
    ghost use Rattle.row_rule.specs.declared.cell.Cell.{Cell};

    ghost Value = { ℕ × List Cell };

    ghost use Rattle.open_session.specs.inner.WordMaps.{AreKept};

    ghost view = { λ w. (w.capacity, reverse w.reads.events) };

    ghost invariant = { λ w. AreKept w.capacity w.words.entries (reverse w.reads.events) };
}

impl WalkWords {
    /// No words yet, of a row with room for `capacity` entries.
    pub fn new(alloc: Global, capacity: usize) -> WalkWords
        requires { capacity ≤ MOST_ENTRIES }
        ensures { result ≡ (capacity, []) }
    {
        WalkWords {
            capacity,
            words: BTreeMap::new(alloc),
            reads: History::new(),
        }
    }

    /// The most entries of the row.
    pub fn capacity(&self) -> usize
        ensures capacity { result ≡ self.now.0 }
        ensures small { result ≤ MOST_ENTRIES }
    {
        self.capacity
    }

    /// How many words were read.
    pub fn count(&self) -> usize
        ensures { result ≡ length self.now.1 }
    {
        self.words.len()
    }

    /// The word that was read at a place, if it was.
    pub fn word(&self, place: usize) -> Option<u64>
        ensures { result ≡ word_in self.now.1 place }
    {
        self.words.get(&place).copied()
    }

    /// Adds a word that was read at a place where none was read before. If memory is refused, nothing changes.
    pub fn read(&mut self, cell: Cell) -> Result<(), AllocError>
        requires { IsUnread self.old.1 cell.place }
        ensures ok { OnOk result (self.new ≡ (self.old.0, cell ∷ self.old.1)) }
        ensures refused { OnErr result (self.new ≡ self.old) }
    {
        self.words.insert(cell.place, cell.word)?;
        self.reads = self.reads.and_one(&cell);
        Ok(())
    }
}
