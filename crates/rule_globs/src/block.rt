//! Blocks of a name: some of its bytes, one after another, which are matched at once.
ghost use Rattle.std.specs.Prelude.{◌≡◌, ◌-◌, ◌<◌, ◌++◌, ◌∷◌, ◌==◌, [], List, ℕ, length};
ghost use Rattle.rule_globs.specs.Glob.{ByteSet, fits, exactly, not_slash, every_byte, class};
ghost use Rattle.rule_globs.specs.Meaning.{in_stars};
ghost use Rattle.rule_globs.specs.inner.Blocks.{taken};
ghost use Rattle.rule_globs.specs.inner.ByteBits.{has_bit};

use crate::items::{Class, Stars};
use std::marker::Model;

/// The most bytes of a block: a word has a bit for each.
const WORD: usize = 64;

/// How many values a byte has.
const VALUES: usize = 256;

/// Up to 64 bytes of a name. To contracts it is the list of them. Which of them are in a set of bytes is a word, in which bit i
/// is of the byte i.
#[derive(Drop)]
pub(crate) struct Block {
    bytes: [u8; WORD],
    count: usize,
    // For each byte, where it is in the block; byte 0 is taken by nothing, and is nowhere.
    written: [u64; VALUES],
    in_component: u64,
    not_zero: u64,
}

impl Model for Block {
    ghost use Rattle.std.specs.Prelude.{◌≡◌, ◌≤◌, ◌<◌, List, ℕ, take, get_or};
    ghost use Rattle.rule_globs.specs.Glob.{exactly, not_slash, every_byte};
    ghost use Rattle.rule_globs.specs.inner.Blocks.{taken};

    ghost Value = { List ℕ };

    ghost view = { λ b. take b.count b.bytes };

    ghost invariant = { λ b. (b.count ≤ 64)
        × ((wanted : ℕ) → wanted < 256 → get_or b.written wanted 0 ≡ taken (exactly wanted) (take b.count b.bytes))
        × (b.in_component ≡ taken not_slash (take b.count b.bytes))
        × (b.not_zero ≡ taken every_byte (take b.count b.bytes)) };
}

impl Block {
    /// The block without bytes.
    pub(crate) fn new() -> Block
        ensures { result ≡ [] }
    {
        Block {
            bytes: [0; WORD],
            count: 0,
            written: [0; VALUES],
            in_component: 0,
            not_zero: 0,
        }
    }

    /// Whether no more bytes fit.
    pub(crate) fn is_full(&self) -> bool
        ensures { result ≡ (length self.now == 64) }
    {
        self.count == WORD
    }

    /// Adds a byte.
    pub(crate) fn push(&mut self, byte: u8)
        requires { length self.old < 64 }
        ensures { self.new ≡ self.old ++ byte ∷ [] }
    {
        let at = usize::from(byte);
        self.written[at] = with_flag(self.written[at], self.count, is_written(byte, byte));
        self.in_component = with_flag(self.in_component, self.count, is_in_component(byte));
        self.not_zero = with_flag(self.not_zero, self.count, is_in_name(byte));
        self.bytes[self.count] = byte;
        self.count += 1;
    }

    /// The bytes that are this one.
    pub(crate) fn written(&self, wanted: u8) -> u64
        ensures { result ≡ taken (exactly wanted) self.now }
    {
        self.written[usize::from(wanted)]
    }

    /// The bytes of components: neither a slash nor byte 0.
    pub(crate) fn in_component(&self) -> u64
        ensures { result ≡ taken not_slash self.now }
    {
        self.in_component
    }

    /// The bytes that the stars take. In addition, the first byte of a strict run isn't a slash.
    pub(crate) fn in_stars(&self, stars: Stars) -> u64
        ensures { result ≡ taken (in_stars stars.crosses_slashes) self.now }
    {
        if stars.crosses_slashes {
            self.not_zero
        } else {
            self.in_component
        }
    }

    /// The bytes of a class.
    pub(crate) fn in_class(&self, listed: &Class) -> u64
        ensures { result ≡ taken (class listed.now.negated listed.now.ranges) self.now }
    {
        let mut word = 0;
        for (i, byte) in self.bytes[..self.count].iter().enumerate() {
            word = with_flag(word, i, listed.takes(*byte));
        }
        word
    }

    /// The bit of the last byte.
    pub(crate) fn last(&self, word: u64) -> bool
        ensures { result ≡ has_bit word (length self.now - 1) }
    {
        (word >> self.count.saturating_sub(1)) & 1 == 1
    }
}

/// A word of some bytes, with a bit for one more.
fn with_flag(word: u64, count: usize, flag: bool) -> u64
    requires { count < 64 }
    ensures { (set : ByteSet) (bytes : List ℕ) (byte : ℕ) → length bytes ≡ count → word ≡ taken set bytes →
        flag ≡ fits set byte → result ≡ taken set (bytes ++ byte ∷ []) }
{
    word | u64::from(flag) << count
}

/// A byte that is written takes itself, but byte 0 takes nothing.
pub(crate) fn is_written(wanted: u8, byte: u8) -> bool
    ensures { result ≡ fits (exactly wanted) byte }
{
    byte != 0 && wanted == byte
}

/// A byte of a name's component: neither a slash nor byte 0.
fn is_in_component(byte: u8) -> bool
    ensures { result ≡ fits not_slash byte }
{
    byte != 0 && byte != b'/'
}

/// A byte that a name can have: any but byte 0.
fn is_in_name(byte: u8) -> bool
    ensures { result ≡ fits every_byte byte }
{
    byte != 0
}
