//! Why an import is refused.
ghost use Rattle.std.specs.Prelude.{◌≡◌, ◌++◌, IfOk, codes, decimal, flat_map, map, option_map, string_bytes};
ghost use Rattle.trace_import.specs.RefusalLines.{at_place, name_line, refusal_front, refusal_text, word_told};

use crate::put::put;
use apparmor_rules::shown_text;
use import_origins::{push_place, push_shown};
use names::NoMemory;
use rule_explain::Place;
use std::alloc::Global;

/// What is reported about a refusal.
#[derive(Clone, Copy, Debug)]
pub struct RefusalLine<'a> {
    /// The number of the refusal's kind.
    pub number: u8,
    /// Where the refused part is in the text, if it is at one place.
    pub place: Option<Place>,
    /// What is refused, if it is a word of the text.
    pub word: Option<&'a [u8]>,
}

/// The text of a refusal: a line, and a line for each of the names, with their control bytes as `?`. The last line has no line break.
pub fn refusal_text(
    alloc: Global,
    line: RefusalLine<'_>,
    names: &[&[u8]],
) -> Result<Vec<u8>, NoMemory>
    ensures { IfOk result (λ text. text.items
        ≡ refusal_text line.entry.number line.entry.place (option_map (λ word. word.now) line.entry.word)
        (map (λ name. name.now) names.now)) }
{
    let mut text = front(alloc, line.number)?;
    put_at(&mut text, alloc, line.place)?;
    put_word(&mut text, alloc, line.word)?;
    put_names(&mut text, names)?;
    Ok(text)
}

/// What each refusal begins with.
fn front(alloc: Global, number: u8) -> Result<Vec<u8>, NoMemory>
    ensures { IfOk result (λ text. text.items ≡ refusal_front number) }
{
    match format!(in alloc; "refused: import {number}") {
        Ok(text) => Ok(text.into_bytes()),
        Err(_) => Err(NoMemory),
    }
}

/// Adds the place, if there is one.
fn put_at(text: &mut Vec<u8>, alloc: Global, place: Option<Place>) -> Result<(), NoMemory>
    ensures { IfOk result (λ _. text.new.items ≡ text.old.items ++ at_place place) }
{
    match place {
        Some(place) => {
            put(text, b" at ")?;
            push_place(text, alloc, place)
        }
        None => Ok(()),
    }
}

/// Adds the word, if there is one.
fn put_word(text: &mut Vec<u8>, alloc: Global, word: Option<&[u8]>) -> Result<(), NoMemory>
    ensures { IfOk result (λ _. text.new.items ≡ text.old.items ++ word_told (option_map (λ w. w.now) word.entry)) }
{
    match word {
        Some(word) => {
            put(text, b" (")?;
            put(text, &shown_text(alloc, word)?)?;
            put(text, b")")
        }
        None => Ok(()),
    }
}

/// Adds each name, after the end of the previous line.
fn put_names(text: &mut Vec<u8>, names: &[&[u8]]) -> Result<(), NoMemory>
    ensures { IfOk result (λ _. text.new.items ≡ text.old.items ++ flat_map name_line (map (λ name. name.now) names.now)) }
{
    for name in names {
        put(text, b"\n")?;
        push_shown(text, name)?;
    }
    Ok(())
}
