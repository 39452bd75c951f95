//! Places of one text, one after the other, and how they are written.
ghost use Rattle.std.specs.Prelude.{◌≡◌, ◌≤◌, ◌++◌, IfOk, length, string_bytes};
ghost use Rattle.import_origins.specs.PlaceText.{place_text};
ghost use Rattle.rule_explain.specs.Places.{place_at};

use crate::put::put;
use names::NoMemory;
use rule_explain::Place;
use std::alloc::Global;
use std::marker::Model;

/// Where a text begins.
const START: Place = Place { line: 1, column: 1 };

/// The places of a text's bytes. Asking for places in ascending order costs one pass over the text in total. Its view is the text.
#[derive(Drop)]
pub struct Places<'t> {
    text: &'t [u8],
    /// The byte whose place was asked for last.
    offset: usize,
    /// Its place.
    place: Place,
}

impl<'t> Model for Places<'t> {
    ghost use Rattle.std.specs.Prelude.{◌≡◌, ◌≤◌, ℕ, List, length};
    ghost use Rattle.rule_explain.specs.Places.{place_at};

    ghost Value = { List ℕ };

    ghost view = { λ p. p.text.now };

    ghost invariant = { λ p. (p.offset ≤ length p.text.now) × (p.place ≡ place_at p.text.now p.offset) };
}

impl<'t> Places<'t> {
    /// The places of this text.
    pub fn new(text: &'t [u8]) -> Places<'t>
        ensures { result ≡ text.now }
    {
        Places {
            text,
            offset: 0,
            place: START,
        }
    }

    /// The place of the byte at `offset`, or of the text's end if there are fewer bytes.
    pub fn place(&mut self, offset: usize) -> Place
        ensures place { result ≡ place_at self.old offset }
        ensures text { self.new ≡ self.old }
    {
        let end = offset.min(self.text.len());
        if end < self.offset {
            self.offset = 0;
            self.place = START;
        }
        self.place = place_from(self.text, self.offset, self.place, end);
        self.offset = end;
        self.place
    }
}

/// The place of a byte, given that of one at or before it.
fn place_from(text: &[u8], start: usize, at_start: Place, end: usize) -> Place
    requires at_start { at_start ≡ place_at text.now start }
    requires ascending { start ≤ end }
    requires within { end ≤ length text.now }
    ensures { result ≡ place_at text.now end }
{
    let mut place = at_start;
    for byte in &text[start..end] {
        if *byte == b'\n' {
            place.line += 1;
            place.column = 1;
        } else {
            place.column += 1;
        }
    }
    place
}

/// Adds a place: `LINE:COLUMN`. If memory is refused, nothing was added.
pub fn push_place(lines: &mut Vec<u8>, alloc: Global, place: Place) -> Result<(), NoMemory>
    ensures { IfOk result (λ _. lines.new.items ≡ lines.old.items ++ place_text place) }
{
    let text = place_text(alloc, place)?;
    put(lines, text.as_bytes())
}

fn place_text(alloc: Global, place: Place) -> Result<String, NoMemory>
    ensures { IfOk result (λ text. string_bytes text ≡ place_text place) }
{
    let Place { line, column } = place;
    match format!(in alloc; "{line}:{column}") {
        Ok(text) => Ok(text),
        Err(_) => Err(NoMemory),
    }
}
