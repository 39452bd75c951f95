//! Sets of bytes as bits of words.
ghost use Rattle.std.specs.Prelude.{◌≡◌, ◌<◌, ◌≤◌, ◌||◌, ◌==◌, ℕ, None, IfSome, false};
ghost use Rattle.glob_automaton.specs.inner.ByteBits.{IsNextByte};
ghost use Rattle.glob_automaton.specs.inner.PlaceBits.{has_place};

use crate::place_bits::{WORD, next_bit};

/// Some bytes: byte b is bit b % 64 of word b / 64.
#[derive(Clone, Copy)]
pub(crate) struct ByteBits {
    words: [u64; 4],
}

impl ByteBits {
    /// No byte.
    pub(crate) fn new() -> ByteBits
        ensures { (b : ℕ) → has_place result.words b ≡ false }
    {
        ByteBits { words: [0; 4] }
    }

    /// Adds a byte.
    pub(crate) fn add(&mut self, byte: u8)
        ensures { (b : ℕ) → has_place self.new.words b ≡ (has_place self.old.words b || (b == byte)) }
    {
        let place = usize::from(byte);
        self.words[place / WORD] = self.words[place / WORD] | (1 << (place % WORD));
    }

    /// The least byte of the set from one on, if there is one.
    pub(crate) fn next_from(&self, from: usize) -> Option<usize>
        ensures some { IfSome result (IsNextByte self.now.words from) }
        ensures none { result ≡ None → (b : ℕ) → from ≤ b → b < 256 → has_place self.now.words b ≡ false }
    {
        let mut at = from;
        while at < 256 {
            if let Some(bit) = next_bit(self.words[at / WORD], at % WORD) {
                return Some(at / WORD * WORD + bit);
            }
            at = (at / WORD + 1) * WORD;
        }
        None
    }
}
