//! Places as bits of words.
ghost use Rattle.std.specs.Prelude.{◌≡◌, ◌↔◌, ◌⊎◌, ◌+◌, ◌*◌, ◌^◌, ◌/◌, ◌%◌, ◌<◌, ◌≤◌, ◌||◌, ◌==◌, ℕ, [], true, false, length, IfOk};
ghost use Rattle.std.specs.Prelude.{IfSome, None, OnOk, Contains, slice_index_or};
ghost use Rattle.glob_automaton.specs.inner.AscendingLists.{IsAscending};
ghost use Rattle.glob_automaton.specs.inner.PlaceBits.{has_from, has_place, is_bit, AreWithin, IsNextBit};

use std::alloc::{AllocError, Global};

/// The bits of a word.
pub(crate) const WORD: usize = 64;

/// The bits of some places: place q is bit q % 64 of word q / 64. Words before `begin`, and from `end` on, are 0.
#[derive(Drop)]
pub(crate) struct PlaceBits {
    words: Vec<u64>,
    begin: usize,
    end: usize,
}

/// Some places that don't change any more: the words from the word `first` on that aren't all 0.
#[derive(Drop)]
pub(crate) struct Closure {
    first: usize,
    words: Vec<u64>,
    ghost few: { first + length words.items ≤ 2 ^ 58 },
}

impl PlaceBits {
    /// No place.
    pub(crate) fn new(alloc: Global) -> PlaceBits
        ensures within { AreWithin result }
        ensures none { (q : ℕ) → has_place result.words.items q ≡ false }
    {
        PlaceBits {
            words: Vec::new(alloc),
            begin: 0,
            end: 0,
        }
    }

    /// Begins again with no place.
    pub(crate) fn clear(&mut self)
        requires { AreWithin self.old }
        ensures within { AreWithin self.new }
        ensures none { (q : ℕ) → has_place self.new.words.items q ≡ false }
    {
        for index in self.begin..self.end {
            self.words[index] = 0;
        }
        self.begin = self.words.len();
        self.end = 0;
    }

    // Makes room for a number of words.
    fn make_room(&mut self, words: usize) -> Result<(), AllocError>
        requires within { AreWithin self.old }
        requires few { words ≤ 2 ^ 58 }
        ensures within { OnOk result (AreWithin self.new) }
        ensures room { OnOk result (words ≤ length self.new.words.items) }
        ensures same { OnOk result ((w : ℕ) → slice_index_or self.new.words.items w 0 ≡ slice_index_or self.old.words.items w 0) }
    {
        if words > self.words.len() {
            self.words.resize(words, 0)?;
        }
        Ok(())
    }

    // Widens the words that may have bits.
    fn widen(&mut self, begin: usize, end: usize)
        ensures words { self.new.words ≡ self.old.words }
        ensures begin { (self.new.begin ≤ self.old.begin) × (self.new.begin ≤ begin) }
        ensures end { (self.old.end ≤ self.new.end) × (end ≤ self.new.end) × ((self.new.end ≡ self.old.end) ⊎ (self.new.end ≡ end)) }
    {
        self.begin = self.begin.min(begin);
        self.end = self.end.max(end);
    }

    /// Adds a place.
    pub(crate) fn add(&mut self, place: usize) -> Result<(), AllocError>
        requires { AreWithin self.old }
        ensures within { OnOk result (AreWithin self.new) }
        ensures places { OnOk result ((q : ℕ) → has_place self.new.words.items q ≡ (has_place self.old.words.items q || (q == place))) }
    {
        let word = place / WORD;
        self.make_room(word + 1)?;
        self.words[word] = self.words[word] | (1 << (place % WORD));
        self.widen(word, word + 1);
        Ok(())
    }

    /// Adds the places of a closure.
    pub(crate) fn join(&mut self, closure: &Closure) -> Result<(), AllocError>
        requires { AreWithin self.old }
        ensures within { OnOk result (AreWithin self.new) }
        ensures places { OnOk result ((q : ℕ) → has_place self.new.words.items q
            ≡ (has_place self.old.words.items q || has_from closure.now.first closure.now.words.items q)) }
    {
        let end = closure.first + closure.words.len();
        self.make_room(end)?;
        for index in 0..closure.words.len() {
            let word = closure.first + index;
            self.words[word] = self.words[word] | closure.words[index];
        }
        self.widen(closure.first, end);
        Ok(())
    }

    /// The same places, to be kept.
    pub(crate) fn closure(&self, alloc: Global) -> Result<Closure, AllocError>
        requires { AreWithin self.now }
        ensures { IfOk result (λ c. (q : ℕ) → has_from c.first c.words.items q ≡ has_place self.now.words.items q) }
    {
        if self.begin >= self.end {
            return Ok(Closure {
                first: 0,
                words: Vec::new(alloc),
            });
        }
        Ok(Closure {
            first: self.begin,
            words: Vec::from_slice(alloc, &self.words[self.begin..self.end])?,
        })
    }

    /// Reads off the places, in ascending order.
    pub(crate) fn read_off(&self, places: &mut Vec<usize>) -> Result<(), AllocError>
        requires { AreWithin self.now }
        ensures sorted { OnOk result (IsAscending places.new.items) }
        ensures places { OnOk result ((q : ℕ) → Contains places.new.items q ↔ (has_place self.now.words.items q ≡ true)) }
    {
        places.clear();
        for index in self.begin..self.end {
            push_word(places, index, self.words[index])?;
        }
        Ok(())
    }
}

// Appends the places of the word with an index.
fn push_word(places: &mut Vec<usize>, index: usize, word: u64) -> Result<(), AllocError>
    requires few { index < 2 ^ 58 }
    requires sorted { IsAscending places.old.items }
    requires below { (q : ℕ) → Contains places.old.items q → q < 64 * index }
    ensures sorted { OnOk result (IsAscending places.new.items) }
    ensures places { OnOk result ((q : ℕ) → Contains places.new.items q
        ↔ (Contains places.old.items q ⊎ ((q / 64 ≡ index) × (is_bit word (q % 64) ≡ true)))) }
{
    let mut from = 0;
    while let Some(bit) = next_bit(word, from) {
        push(places, WORD * index + bit)?;
        from = bit + 1;
    }
    Ok(())
}

// Appends a place; with its own contract.
fn push(places: &mut Vec<usize>, place: usize) -> Result<(), AllocError>
    requires sorted { IsAscending places.old.items }
    requires below { (q : ℕ) → Contains places.old.items q → q < place }
    ensures sorted { OnOk result (IsAscending places.new.items) }
    ensures places { OnOk result ((q : ℕ) → Contains places.new.items q ↔ (Contains places.old.items q ⊎ (place ≡ q))) }
{
    places.push(place)?;
    Ok(())
}

/// The first bit of a word from one on that is set.
pub(crate) fn next_bit(word: u64, from: usize) -> Option<usize>
    requires { from ≤ 64 }
    ensures some { IfSome result (IsNextBit word from) }
    ensures none { result ≡ None → (i : ℕ) → from ≤ i → i < 64 → is_bit word i ≡ false }
{
    if from == WORD {
        return None;
    }
    let rest = word >> from;
    if rest == 0 {
        return None;
    }
    Some(from + rest.trailing_zeros() as usize)
}
