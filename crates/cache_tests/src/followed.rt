//! A row with the tally that follows it. What the tally knows is found here by reading the words of all slots.
use row_tally::RowTally;
use std::alloc::Global;
use std::test::Fail;
use tree_row::{DIRECTORY, FREE, KIND, MOST_ENTRIES, NODE, PARENT, SLOT_LENGTH};

/// The words of the slots of a row, and the row's tally.
#[derive(Drop)]
pub(crate) struct Followed {
    alloc: Global,
    words: Vec<u64>,
    pub tally: RowTally,
}

// Where a cell of a slot is.
fn place_of(slot: usize, index: usize) -> usize {
    slot.wrapping_mul(SLOT_LENGTH).wrapping_add(index)
}

impl Followed {
    /// The initial row with room for `capacity` entries.
    pub(crate) fn new(alloc: Global, capacity: usize) -> Result<Followed, Fail> {
        if capacity > MOST_ENTRIES {
            return Err("a capacity")?;
        }
        let words = vec![in alloc; 0u64; SLOT_LENGTH * (capacity + 1)];
        let mut words = words.ok().ok_or("memory")?;
        words[KIND] = DIRECTORY;
        words[NODE] = 1;
        let tally = RowTally::new(alloc, capacity).ok().ok_or("memory")?;
        Ok(Followed {
            alloc,
            words,
            tally,
        })
    }

    /// Sets a cell of a slot, and passes it to the tally. A slot past the last one has no word.
    pub(crate) fn put(&mut self, slot: usize, index: usize, word: u64) {
        let place = place_of(slot, index);
        if let Some(cell) = self.words.get_mut(place) {
            *cell = word;
        }
        self.tally.set(place, word);
    }

    /// Whether the tally knows a directory to be empty, if the row has its slot.
    pub(crate) fn is_empty(&self, directory: usize) -> Option<bool> {
        if directory > self.tally.capacity() {
            return None;
        }
        Some(self.tally.is_empty(directory))
    }

    /// Whether the tally knows what the words say.
    pub(crate) fn agrees(&self) -> Result<bool, Fail> {
        if self.tally.first_free() != self.first_free() {
            return Ok(false);
        }
        for (directory, entries) in self.entries()?.iter().enumerate() {
            if self.is_empty(directory) != Some(*entries == 0) {
                return Ok(false);
            }
        }
        Ok(true)
    }

    fn word(&self, slot: usize, index: usize) -> u64 {
        match self.words.get(place_of(slot, index)) {
            Some(word) => *word,
            None => FREE,
        }
    }

    fn slots(&self) -> usize {
        self.words.len() / SLOT_LENGTH
    }

    /// The first slot past the root's whose kind is 0.
    pub(crate) fn first_free(&self) -> Option<usize> {
        for slot in 1..self.slots() {
            if self.word(slot, KIND) == FREE {
                return Some(slot);
            }
        }
        None
    }

    // For each slot the number of those past the root's whose entries are in its directory.
    fn entries(&self) -> Result<Vec<usize>, Fail> {
        let entries = vec![in self.alloc; 0usize; self.slots()];
        let mut entries = entries.ok().ok_or("memory")?;
        for slot in 1..self.slots() {
            let parent = self.word(slot, PARENT);
            if self.word(slot, KIND) == FREE {
                continue;
            }
            if let Some(count) = entries.get_mut(parent as usize) {
                *count = count.wrapping_add(1);
            }
        }
        Ok(entries)
    }
}
