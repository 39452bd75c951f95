//! Places of a text as they are shown: what is said of the place, the part of its line about it, and a caret.
ghost use Rattle.std.specs.Prelude.{◌≡◌, ◌<◌, ◌++◌, ◌∷◌, [], IfOk, codes, map, replicate, string_bytes};
ghost use Rattle.rule_explain.specs.Windows.{fits, place_line, place_lines, shown, shown_front, shown_rest};

use crate::place::{Place, line_at, parts_at, place_at};
use names::NoMemory;
use std::alloc::Global;

/// How many columns of a line are shown.
const MOST_COLUMNS: usize = 72;

/// How many of them are before the place, where a line is cut.
const MOST_BEFORE: usize = 36;

/// What stands where a line is cut.
const CUT: &str = "..";

/// Shows a place of a text, before which there are this many lines: a line with the place and what is said of it, the part of the
/// text's line about it, and a line with a caret below the byte. The last line has no end.
pub fn place_lines(
    alloc: Global,
    lines_before: u64,
    text: &[u8],
    offset: usize,
    said: &str,
) -> Result<String, NoMemory>
    ensures { IfOk result (λ lines. string_bytes lines ≡ place_lines lines_before text.now offset said.now) }
{
    let (front, rest) = line_at(text, offset);
    let before = shown_front(alloc, front, rest)?;
    let room = MOST_COLUMNS.saturating_sub(before.len());
    let behind = shown_rest(alloc, room, rest)?;
    let mut lines = place_line(alloc, lines_before, place_at(text, offset), said)?;
    push_text(&mut lines, &before)?;
    push_text(&mut lines, &behind)?;
    push(&mut lines, '\n')?;
    push_spaces(&mut lines, before.len())?;
    push(&mut lines, '^')?;
    Ok(lines)
}

/// The first line.
fn place_line(
    alloc: Global,
    lines_before: u64,
    place: Place,
    said: &str,
) -> Result<String, NoMemory>
    ensures { IfOk result (λ line. string_bytes line ≡ place_line lines_before place said.now ++ codes "\n") }
{
    let line = u128::from(lines_before) + place.line as u128;
    let column = place.column;
    match format!(in alloc; "line {line}, column {column}: {said}\n") {
        Ok(text) => Ok(text),
        Err(_) => Err(NoMemory),
    }
}

/// Whether a line is shown whole: its bytes before a place, and from it on.
fn fits(front: &[u8], rest: &[u8]) -> bool
    ensures { result ≡ fits front.now rest.now }
{
    front.len() + rest.len() <= MOST_COLUMNS
}

/// What is shown of the bytes before a place.
fn shown_front(alloc: Global, front: &[u8], rest: &[u8]) -> Result<String, NoMemory>
    ensures { IfOk result (λ text. string_bytes text ≡ shown_front front.now rest.now) }
{
    let mut text = String::new(alloc);
    if front.len() <= MOST_BEFORE || fits(front, rest) {
        push_shown(&mut text, front)?;
        return Ok(text);
    }
    push_text(&mut text, CUT)?;
    let (_, last) = parts_at(front, front.len() - (MOST_BEFORE - 2));
    push_shown(&mut text, last)?;
    Ok(text)
}

/// What is shown, in this many columns, of the bytes from a place on.
fn shown_rest(alloc: Global, room: usize, rest: &[u8]) -> Result<String, NoMemory>
    ensures { IfOk result (λ text. string_bytes text ≡ shown_rest room rest.now) }
{
    let mut text = String::new(alloc);
    if rest.len() <= room {
        push_shown(&mut text, rest)?;
        return Ok(text);
    }
    let (first, _) = parts_at(rest, room.saturating_sub(CUT.len()));
    push_shown(&mut text, first)?;
    push_text(&mut text, CUT)?;
    Ok(text)
}

/// Adds a character.
fn push(lines: &mut String, character: char) -> Result<(), NoMemory>
    requires { character < 128 }
    ensures { IfOk result (λ _. string_bytes lines.new ≡ string_bytes lines.old ++ character ∷ []) }
{
    match lines.push(character) {
        Ok(()) => Ok(()),
        Err(_) => Err(NoMemory),
    }
}

/// Adds a text.
fn push_text(lines: &mut String, text: &str) -> Result<(), NoMemory>
    ensures { IfOk result (λ _. string_bytes lines.new ≡ string_bytes lines.old ++ text.now) }
{
    match lines.push_str(text) {
        Ok(()) => Ok(()),
        Err(_) => Err(NoMemory),
    }
}

/// Adds bytes as they are shown.
pub(crate) fn push_shown(lines: &mut String, bytes: &[u8]) -> Result<(), NoMemory>
    ensures { IfOk result (λ _. string_bytes lines.new ≡ string_bytes lines.old ++ map shown bytes.now) }
{
    for byte in bytes {
        push(lines, shown(*byte))?;
    }
    Ok(())
}

fn push_spaces(lines: &mut String, count: usize) -> Result<(), NoMemory>
    ensures { IfOk result (λ _. string_bytes lines.new ≡ string_bytes lines.old ++ replicate count 32) }
{
    for _ in 0..count {
        push(lines, ' ')?;
    }
    Ok(())
}

/// A byte as it is shown, so that a text can't drive a terminal.
fn shown(byte: u8) -> char
    ensures value { result ≡ shown byte }
    ensures ascii { result < 128 }
{
    match byte {
        b'\t' => ' ',
        b' '..=b'~' => char::from(byte),
        _ => '?',
    }
}
