//! Sets of bytes as bits.
ghost use Rattle.std.specs.Prelude.{◌≡◌, ℕ, ◌<◌, ◌+◌, ◌*◌, ◌||◌, get_or, nat_lt};
ghost use Rattle.rule_globs.specs.Glob.{in_range, in_ranges};
ghost use Rattle.rule_globs.specs.inner.ByteBits.{has, has_bit};

use crate::items::ByteRange;

/// How many bits a word has.
const WORD: u8 = 64;

/// A set of bytes: a bit for each, so that one is looked up in constant time.
#[derive(Clone, Copy, Debug)]
pub(crate) struct ByteBits {
    words: [u64; 4],
}

impl ByteBits {
    /// The set of the bytes that are in some range.
    pub(crate) fn of(ranges: &[ByteRange]) -> ByteBits
        ensures { (b : ℕ) → b < 256 → has result b ≡ in_ranges ranges.now b }
    {
        let mut bits = ByteBits { words: [0; 4] };
        for range in ranges {
            bits = bits.with_range(*range);
        }
        bits
    }

    /// The set with the bytes of the range added.
    fn with_range(self, range: ByteRange) -> ByteBits
        ensures { (b : ℕ) → b < 256 → has result b ≡ (has self b || in_range range b) }
    {
        ByteBits {
            words: [
                self.word_with(0, range),
                self.word_with(1, range),
                self.word_with(2, range),
                self.word_with(3, range),
            ],
        }
    }

    // The word of this index, with those bytes of the range added that it has bits for.
    fn word_with(self, index: usize, range: ByteRange) -> u64
        requires { index < 4 }
        ensures { (i : ℕ) → i < 64 → has_bit result i
            ≡ (has_bit (get_or self.words index 0) i || in_range range (64 * index + i)) }
    {
        let before = 64 * index as u64;
        let behind_last = u64::from(range.last) + 1;
        let not_before_first = !low_bits(u64::from(range.first).saturating_sub(before));
        let upto_last = low_bits(behind_last.saturating_sub(before));
        self.words[index] | not_before_first & upto_last
    }

    /// Whether the byte is in the set.
    pub(crate) fn contains(self, byte: u8) -> bool
        ensures { result ≡ has self byte }
    {
        (self.words[usize::from(byte / WORD)] >> (byte % WORD)) & 1 == 1
    }
}

/// A word with its lowest `count` bits set, or all of them where it has no more.
fn low_bits(count: u64) -> u64
    ensures { (i : ℕ) → i < 64 → has_bit result i ≡ nat_lt i count }
{
    if count < 64 {
        (1 << count) - 1
    } else {
        u64::MAX
    }
}
