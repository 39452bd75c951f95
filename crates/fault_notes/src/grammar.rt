//! Texts that the grammar of profiles doesn't allow.
ghost use Rattle.std.specs.Prelude.{◌≡◌, ◌<◌, ◌^◌, IfOk, drop, length, option_map};
ghost use Rattle.apparmor_text.specs.Parts.{bytes_of_items};
ghost use Rattle.apparmor_words.specs.Stops.{stop_value};
ghost use Rattle.fault_notes.specs.GrammarNotes.{IsCommaMissing, IsGrammarSaid, begins_at, grammar_said, reads_past, with_comma};

use apparmor_text::{Item, items_are_the_text, read_items};
use apparmor_words::Stop;
use names::NoMemory;
use std::alloc::{AllocError, Global};

/// What is said of a place in a text that the grammar doesn't allow.
pub(crate) fn grammar_said(
    alloc: Global,
    text: &[u8],
    place: usize,
) -> Result<&'static str, NoMemory>
    ensures { IfOk result (λ said. IsGrammarSaid text.now place said.now) }
{
    let (front, rest) = text.split_at(place.min(text.len()));
    let is_missing = is_comma_missing(alloc, front, rest)?;
    Ok(sentence(rest, is_missing))
}

/// The sentence, by what follows the place and whether a comma is missing.
fn sentence(rest: &[u8], is_missing: bool) -> &'static str
    ensures { result.now ≡ grammar_said rest.now is_missing }
{
    if rest.is_empty() {
        "the text ends where more must follow"
    } else if is_missing {
        "a comma is missing before this"
    } else {
        "the grammar of profiles doesn't allow what is here"
    }
}

/// Whether, with a comma between the parts of a text, an item would end there, and reading would get past that place.
fn is_comma_missing(alloc: Global, front: &[u8], rest: &[u8]) -> Result<bool, NoMemory>
    ensures { IfOk result (λ missing. IsCommaMissing front.now rest.now missing) }
{
    items_are_the_text();
    let Ok(text) = with_comma(alloc, front, rest) else {
        return Err(NoMemory);
    };
    let read = read_items(alloc, &text)?;
    let ends = begins_at(&read.items, front.len() + 1);
    Ok(ends && reads_past(&read.stop, rest.len()))
}

/// The parts of a text, with a comma and the end of a line between them.
fn with_comma(alloc: Global, front: &[u8], rest: &[u8]) -> Result<Vec<u8>, AllocError>
    ensures { IfOk result (λ text. text.items ≡ with_comma front.now rest.now) }
{
    let mut text = Vec::from_slice(alloc, front)?;
    text.extend_from_slice(b",\n")?;
    text.extend_from_slice(rest)?;
    Ok(text)
}

/// Whether one of the items begins at a place.
fn begins_at(items: &[Item<'_>], place: usize) -> bool
    requires { length (bytes_of_items items.now) < 2 ^ 64 }
    ensures { result ≡ begins_at place 0 items.now }
{
    let mut before = 0;
    for item in items {
        if before == place {
            return true;
        }
        before += item.text().len();
    }
    false
}

/// Whether reading stops where fewer than `left` bytes are left, or not at all.
fn reads_past(stop: &Option<Stop<'_>>, left: usize) -> bool
    ensures { result ≡ reads_past left (option_map stop_value stop.now) }
{
    match stop {
        Some(stop) => stop.left < left,
        None => true,
    }
}
