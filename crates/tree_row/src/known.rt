//! What is known of a row.
ghost use Rattle.std.specs.Prelude.{◌≡◌, ◌≤◌, ◌+◌, [], length, OnOk, OnErr, ◌⊎◌, ℕ};
ghost use Rattle.std.specs.Option.{option_or};
ghost use Rattle.tree_row.specs.Known.{known_at, Learns};

use crate::cells::MOST_ENTRIES;
use std::alloc::{AllocError, Global};
use std::collections::BTreeMap;
use std::marker::Model;

/// Words of a row that are known, by their places.
///
/// Its view is the pair of the row's capacity and what is known: each word with its place.
#[derive(Drop)]
pub struct KnownWords {
    capacity: usize,
    words: BTreeMap<usize, u64>,
}

impl Model for KnownWords {
    ghost use Rattle.std.specs.Prelude.{◌≤◌, ℕ, List};
    ghost use Rattle.tree_row.specs.declared.cells.TheConstants.{MOST_ENTRIES};

    ghost Value = { ℕ × List (ℕ × ℕ) };

    ghost view = { λ k. (k.capacity, k.words.entries) };

    ghost invariant = { λ k. k.capacity ≤ MOST_ENTRIES };
}

impl KnownWords {
    /// Nothing is known yet, of a row with room for `capacity` entries.
    pub fn new(alloc: Global, capacity: usize) -> KnownWords
        requires { capacity ≤ MOST_ENTRIES }
        ensures { result ≡ (capacity, []) }
    {
        KnownWords {
            capacity,
            words: BTreeMap::new(alloc),
        }
    }

    /// The most entries of the row.
    pub fn capacity(&self) -> usize
        ensures capacity { result ≡ self.now.0 }
        ensures small { result ≤ MOST_ENTRIES }
    {
        self.capacity
    }

    /// How many words are known.
    pub fn count(&self) -> usize
        ensures { result ≡ length self.now.1 }
    {
        self.words.len()
    }

    /// The word at a place, if it is known.
    pub fn word(&self, place: usize) -> Option<u64>
        ensures { result ≡ known_at self.now.1 place }
    {
        self.words.get(&place).copied()
    }

    /// Records the word at a place as known. If memory is refused, nothing changes.
    pub fn learn(&mut self, place: usize, word: u64) -> Result<(), AllocError>
        ensures capacity { self.new.0 ≡ self.old.0 }
        ensures learns { OnOk result (Learns self.old.1 self.new.1 place word) }
        ensures count { OnOk result (length self.new.1 ≤ length self.old.1 + 1) }
        ensures refused { OnErr result (self.new ≡ self.old) }
    {
        self.words.insert(place, word)?;
        Ok(())
    }

    /// Adds what `later` knows; where both know a word, that of `later` wins. If memory is refused, a part of it may have been added.
    pub fn append(&mut self, later: KnownWords) -> Result<(), AllocError>
        ensures capacity { self.new.0 ≡ self.old.0 }
        ensures ok { OnOk result ((place : ℕ) → known_at self.new.1 place
            ≡ option_or (known_at later.1 place) (known_at self.old.1 place)) }
        ensures either { (place : ℕ) → (known_at self.new.1 place ≡ known_at self.old.1 place)
            ⊎ (known_at self.new.1 place ≡ known_at later.1 place) }
    {
        let mut words = later.words;
        self.words.append(&mut words)?;
        Ok(())
    }
}
