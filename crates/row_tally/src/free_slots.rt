//! Which slots are free.
ghost use Rattle.std.specs.Prelude.{◌≡◌, ◌≢◌, ◌↔◌, ◌<◌, ◌≤◌, ◌+◌, ◌/◌, ◌^◌, ℕ, IfOk, IsTrue, MatchOption, length};
ghost use Rattle.row_tally.specs.Bits.{bit_in, IsFirstBit};

use crate::bits::{WORD, clear_bit, first_bit, low_bit, set_bit};
use names::NoMemory;
use std::alloc::Global;
use std::marker::Model;

/// A set of slots, of which the first one is found in few steps.
///
/// Contracts see it as words, of whose bits those of its slots are set.
#[derive(Drop)]
pub(crate) struct FreeSlots {
    words: Vec<u64>,
    // The bits of those words that aren't 0.
    summary: Vec<u64>,
}

impl Model for FreeSlots {
    ghost use Rattle.std.specs.Prelude.{List, ℕ};
    ghost use Rattle.row_tally.specs.Bits.{IsSummary};

    ghost Value = { List ℕ };

    ghost view = { λ f. f.words.items };

    ghost invariant = { λ f. IsSummary f.words.items f.summary.items };
}

impl FreeSlots {
    // No slot, with room for this many.
    fn none(alloc: Global, slots: usize) -> Result<FreeSlots, NoMemory>
        requires { slots ≤ 2 ^ 32 }
        ensures long { IfOk result (λ free. length free ≡ slots / 64 + 1) }
        ensures none { IfOk result (λ free. (s : ℕ) → bit_in free s ≡ 0) }
    {
        let count = slots / WORD + 1;
        let Ok(words) = vec![in alloc; 0u64; count] else {
            return Err(NoMemory);
        };
        let Ok(summary) = vec![in alloc; 0u64; count / WORD + 1] else {
            return Err(NoMemory);
        };
        Ok(FreeSlots { words, summary })
    }

    /// Of this many slots all but the root's.
    pub(crate) fn past_root(alloc: Global, slots: usize) -> Result<FreeSlots, NoMemory>
        requires root { 0 < slots }
        requires few { slots ≤ 2 ^ 32 }
        ensures long { IfOk result (λ free. length free ≡ slots / 64 + 1) }
        ensures slots { IfOk result (λ free. (s : ℕ) → (bit_in free s ≡ 1) ↔ ((0 < s) × (s < slots))) }
    {
        let mut free = FreeSlots::none(alloc, slots)?;
        for slot in 1..slots {
            free.insert(slot);
        }
        Ok(free)
    }

    /// Adds a slot that is free, or removes one that isn't.
    pub(crate) fn mark(&mut self, slot: usize, free: bool)
        requires { slot / 64 < length self.old }
        ensures long { length self.new ≡ length self.old }
        ensures here { (bit_in self.new slot ≡ 1) ↔ IsTrue free }
        ensures others { (s : ℕ) → s ≢ slot → bit_in self.new s ≡ bit_in self.old s }
    {
        if free {
            self.insert(slot);
        } else {
            self.remove(slot);
        }
    }

    // Adds a slot.
    fn insert(&mut self, slot: usize)
        requires { slot / 64 < length self.old }
        ensures long { length self.new ≡ length self.old }
        ensures here { bit_in self.new slot ≡ 1 }
        ensures others { (s : ℕ) → s ≢ slot → bit_in self.new s ≡ bit_in self.old s }
    {
        set_bit(&mut self.words, slot);
        set_bit(&mut self.summary, slot / WORD);
    }

    // Removes a slot.
    fn remove(&mut self, slot: usize)
        requires { slot / 64 < length self.old }
        ensures long { length self.new ≡ length self.old }
        ensures here { bit_in self.new slot ≡ 0 }
        ensures others { (s : ℕ) → s ≢ slot → bit_in self.new s ≡ bit_in self.old s }
    {
        clear_bit(&mut self.words, slot);
        if self.words[slot / WORD] == 0 {
            clear_bit(&mut self.summary, slot / WORD);
        }
    }

    /// Returns the first slot, if there is one.
    pub(crate) fn first(&self) -> Option<usize>
        ensures { MatchOption result ((s : ℕ) → bit_in self.now s ≡ 0) (IsFirstBit self.now) }
    {
        match first_bit(&self.summary) {
            Some(word) => Some(WORD * word + low_bit(self.words[word])),
            None => None,
        }
    }
}
