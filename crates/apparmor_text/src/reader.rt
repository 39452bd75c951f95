//! The parts of an item that is being read, and the bytes that are left.
ghost use Rattle.std.specs.Prelude.{◌≡◌, [], Ok, length};
ghost use Rattle.apparmor_words.specs.Gives.{Gives};
ghost use Rattle.apparmor_text.specs.Readings.{taken, taken_to};
ghost use Rattle.apparmor_text.specs.WordParts.{blank_part, gap_part, word_part, path_part, literal_part, name_part, within_quotes};
ghost use Rattle.apparmor_text.specs.WordParts.{begins_no_name};
ghost use Rattle.rule_reader.specs.TextBytes.{begins};

use crate::part::{Part, PartKind};
use apparmor_words::{Failure, StopKind, after_blank, after_word, begins_gap, fault_here, is_path};
use std::alloc::Global;
use std::marker::Model;

/// What was read of an item, and what is left of the text.
#[derive(Drop)]
pub(crate) struct Reader<'t> {
    parts: Vec<Part<'t>>,
    rest: &'t [u8],
}

impl<'t> Model for Reader<'t> {
    ghost use Rattle.apparmor_text.specs.Readings.{Reading};

    ghost Value = { Reading };

    ghost view = { λ r. record { parts = r.parts.items; rest = r.rest.now } };
}

/// What is here, after a quote if there is one.
pub(crate) fn within_quotes(bytes: &[u8]) -> &[u8]
    ensures { result.now ≡ within_quotes bytes.now }
{
    match bytes {
        [b'"', inside @ ..] => inside,
        _ => bytes,
    }
}

/// Whether no bare name begins like this.
fn begins_no_name(bytes: &[u8]) -> bool
    ensures { result ≡ begins begins_no_name bytes.now }
{
    matches!(bytes, [b'{' | b'}' | b',' | b'(', ..])
}

/// The fault at the first of these bytes, as the reason why something was not read.
pub(crate) fn failure_here<'t>(kind: StopKind<'t>, bytes: &[u8]) -> Failure<'t>
    ensures { result ≡ Failure.At (record { kind = kind.entry; left = length bytes.now }) }
{
    Failure::At(fault_here(kind, bytes))
}

impl<'t> Reader<'t> {
    /// Nothing was read, and these bytes are left.
    pub(crate) fn new(alloc: Global, rest: &'t [u8]) -> Reader<'t>
        ensures { result ≡ record { parts = []; rest = rest.now } }
    {
        Reader {
            parts: Vec::new(alloc),
            rest,
        }
    }

    /// What is left.
    pub(crate) fn rest(&self) -> &'t [u8]
        ensures { result.now ≡ self.now.rest }
    {
        self.rest
    }

    /// The parts.
    pub(crate) fn parts(&self) -> &[Part<'t>]
        ensures { result.now ≡ self.now.parts }
    {
        &self.parts
    }

    /// The parts, and what is left.
    pub(crate) fn finish(self) -> (Vec<Part<'t>>, &'t [u8])
        ensures parts { result.0.items ≡ self.entry.parts }
        ensures rest { result.1.now ≡ self.entry.rest }
    {
        (self.parts, self.rest)
    }

    /// Takes `count` bytes as a part, unless there are none.
    pub(crate) fn take(&mut self, kind: PartKind, count: usize) -> Result<(), Failure<'t>>
        ensures { Gives (λ _. self.new) result (Ok (taken kind count self.old)) }
    {
        let (bytes, rest) = self.rest.split_at(count.min(self.rest.len()));
        if !bytes.is_empty() {
            self.parts.push(Part::new(kind, bytes))?;
            self.rest = rest;
        }
        Ok(())
    }

    /// Takes as a part the bytes before `rest`, with which what is left ends.
    pub(crate) fn take_to(&mut self, kind: PartKind, rest: &[u8]) -> Result<(), Failure<'t>>
        ensures { Gives (λ _. self.new) result (Ok (taken_to kind rest.now self.old)) }
    {
        self.take(kind, self.rest.len().saturating_sub(rest.len()))
    }

    /// White space and comments, if any are here.
    pub(crate) fn blank(&mut self) -> Result<(), Failure<'t>>
        ensures { Gives (λ _. self.new) result (blank_part self.old) }
    {
        let rest = after_blank(self.rest)?;
        self.take_to(PartKind::Blank, rest)
    }

    /// The same, where at least one byte of it is required.
    pub(crate) fn gap(&mut self) -> Result<(), Failure<'t>>
        ensures { Gives (λ _. self.new) result (gap_part self.old) }
    {
        if begins_gap(self.rest) {
            self.blank()
        } else {
            Err(failure_here(StopKind::Syntax, self.rest))
        }
    }

    /// A word.
    pub(crate) fn word(&mut self, kind: PartKind) -> Result<(), Failure<'t>>
        ensures { Gives (λ _. self.new) result (word_part kind self.old) }
    {
        let rest = after_word(self.rest)?;
        self.take_to(kind, rest)
    }

    /// A word that is a path.
    pub(crate) fn path(&mut self, kind: PartKind) -> Result<(), Failure<'t>>
        ensures { Gives (λ _. self.new) result (path_part kind self.old) }
    {
        if is_path(self.rest) {
            self.word(kind)
        } else {
            Err(failure_here(StopKind::Syntax, within_quotes(self.rest)))
        }
    }

    /// These bytes.
    pub(crate) fn literal(&mut self, kind: PartKind, literal: &[u8]) -> Result<(), Failure<'t>>
        ensures { Gives (λ _. self.new) result (literal_part kind literal.now self.old) }
    {
        if self.rest.starts_with(literal) {
            self.take(kind, literal.len())
        } else {
            Err(failure_here(StopKind::Syntax, self.rest))
        }
    }

    /// A word that is a name: at least one byte. One that begins with a colon would be of a namespace.
    pub(crate) fn name(&mut self, kind: PartKind) -> Result<(), Failure<'t>>
        ensures { Gives (λ _. self.new) result (name_part kind self.old) }
    {
        let inside = within_quotes(self.rest);
        match inside {
            [b':', ..] => Err(failure_here(StopKind::LeftOut(b":"), inside)),
            [b'"', ..] => Err(failure_here(StopKind::Syntax, inside)),
            _ if begins_no_name(self.rest) => Err(failure_here(StopKind::Syntax, self.rest)),
            _ => self.word(kind),
        }
    }
}
