//! Where a word of a line is.
ghost use Rattle.std.specs.Prelude.{◌≡◌};
ghost use Rattle.script_notes.specs.Forms.{after_word, word_place};

use names::{skip, split_at};
use trace_script::Blank;

/// The place of the word of this number, from 0, in a line, which may begin with blanks.
pub(crate) fn word_place(line: &[u8], word: usize) -> usize
    ensures { result ≡ word_place word line.now }
{
    let mut from = skip::<Blank>(line);
    let mut left = word;
    while 0 < left {
        from = after_word(from);
        left -= 1;
    }
    line.len().saturating_sub(from.len())
}

/// The line from its next word on, from a word of it.
fn after_word(line: &[u8]) -> &[u8]
    ensures { result.now ≡ after_word line.now }
{
    let (_, rest) = split_at::<Blank>(line);
    skip::<Blank>(rest)
}
