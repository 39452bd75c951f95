//! Sets of numbers as bits of words.
ghost use Rattle.std.specs.Prelude.{◌≡◌, ◌≢◌, ◌<◌, ◌≤◌, ◌/◌, ◌^◌, ℕ, MatchOption, length, slice_index};
ghost use Rattle.row_tally.specs.Bits.{bit_in, IsFirstBit, IsLowBit};

/// The bits of a word.
pub(crate) const WORD: usize = 64;

/// Sets the bit of a number.
pub(crate) fn set_bit(words: &mut [u64], number: usize)
    requires { number / 64 < length words.old }
    ensures here { bit_in words.new number ≡ 1 }
    ensures others { (m : ℕ) → m ≢ number → bit_in words.new m ≡ bit_in words.old m }
    ensures words { (w : ℕ) → w ≢ number / 64 → slice_index words.new w ≡ slice_index words.old w }
{
    let word = number / WORD;
    words[word] = words[word] | (1 << (number % WORD));
}

/// Clears the bit of a number.
pub(crate) fn clear_bit(words: &mut [u64], number: usize)
    requires { number / 64 < length words.old }
    ensures here { bit_in words.new number ≡ 0 }
    ensures less { slice_index words.new (number / 64) ≤ slice_index words.old (number / 64) }
    ensures others { (m : ℕ) → m ≢ number → bit_in words.new m ≡ bit_in words.old m }
    ensures words { (w : ℕ) → w ≢ number / 64 → slice_index words.new w ≡ slice_index words.old w }
{
    let word = number / WORD;
    words[word] = words[word] & !(1 << (number % WORD));
}

/// Returns the lowest bit of a word that is set.
pub(crate) fn low_bit(word: u64) -> usize
    requires { 0 < word }
    ensures { IsLowBit word result }
{
    word.trailing_zeros() as usize
}

/// Returns the least number whose bit is set, if one is. Reads the words up to that of the number.
pub(crate) fn first_bit(words: &[u64]) -> Option<usize>
    requires { length words.now ≤ 2 ^ 32 }
    ensures { MatchOption result ((m : ℕ) → bit_in words.now m ≡ 0) (IsFirstBit words.now) }
{
    for (index, word) in words.iter().enumerate() {
        if *word != 0 {
            return Some(WORD * index + low_bit(*word));
        }
    }
    None
}
