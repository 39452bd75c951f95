//! The words of a line.
ghost use Rattle.std.specs.Prelude.{◌≡◌};
ghost use Rattle.std.specs.Iterator.{YieldsFirstBy, item_count};
ghost use Rattle.trace_script.specs.Script.{is_blank, words_of};

use names::{Separator, skip, split_at};
use std::iter::FusedIterator;
use std::marker::Model;

/// The words between the blanks of a line, modelled as the list of the words that are left.
#[derive(Drop)]
pub struct Words<'a> {
    left: &'a [u8],
}

impl<'a> Model for Words<'a> {
    ghost use Rattle.std.specs.Prelude.{ℕ, List};
    ghost use Rattle.trace_script.specs.Script.{words_of};

    ghost Value = { List (List ℕ) };

    ghost view = { λ w. words_of w.left.now };
}

impl<'a> Words<'a> {
    /// The words of a line. Allocates nothing.
    pub fn of(line: &'a [u8]) -> Words<'a>
        ensures { result ≡ words_of line.now }
    {
        Words { left: line }
    }

    /// The rest of the line, whose words are the ones that are left.
    pub fn rest(&self) -> &'a [u8]
        ensures { words_of result.now ≡ self.now }
    {
        self.left
    }
}

impl<'a> Iterator for Words<'a> {
    type Item = &'a [u8];

    ghost next_gives = { YieldsFirstBy (λ word. word.now) (λ left. left) };

    ghost remaining = { item_count (λ left. left) };

    fn next(&mut self) -> Option<&'a [u8]> {
        let (word, left) = split_at::<Blank>(skip::<Blank>(self.left));
        self.left = left;
        if word.is_empty() {
            return None;
        }
        Some(word)
    }
}

impl<'a> FusedIterator for Words<'a> {}

/// Whether a byte separates words.
pub fn is_blank(byte: u8) -> bool
    ensures { result ≡ is_blank byte }
{
    byte == b' ' || byte == b'\t'
}

/// Blanks, which separate the words of a line.
#[derive(Debug, Drop)]
pub struct Blank;

impl Separator for Blank {
    ghost separates = { is_blank };

    fn separates(byte: u8) -> bool {
        is_blank(byte)
    }
}
