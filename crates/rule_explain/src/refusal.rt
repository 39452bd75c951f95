//! Where a text is refused, and why.
ghost use Rattle.std.specs.Prelude.{◌≡◌, ◌++◌, IfOk, codes, drop, string_bytes};
ghost use Rattle.rule_reader.specs.FaultText.{fault_text};
ghost use Rattle.rule_explain.specs.FaultLines.{fault_lines, fault_lines_from};
ghost use Rattle.rule_explain.specs.FaultWords.{fault_said, is_comma_missing, named, variable_advice};

use crate::advice::{advice, variable_advice};
use crate::place::parts_at;
use crate::window::{place_lines, push_shown};
use names::NoMemory;
use rule_reader::{ReadFault, read};
use std::alloc::Global;

/// How much of a word is named.
const MOST_NAMED: usize = 40;

/// Shows where a text is refused: a line with the place and the fault in words, the part of the text's line about it, and a line
/// with a caret below the byte. The last line has no end.
pub fn fault_lines(alloc: Global, text: &[u8], fault: ReadFault) -> Result<String, NoMemory>
    ensures { IfOk result (λ lines. string_bytes lines ≡ fault_lines text.now fault) }
{
    fault_lines_from(alloc, 0, text, fault)
}

/// The same for a text before which there are this many lines.
pub fn fault_lines_from(
    alloc: Global,
    lines_before: u64,
    text: &[u8],
    fault: ReadFault,
) -> Result<String, NoMemory>
    ensures { IfOk result (λ lines. string_bytes lines ≡ fault_lines_from lines_before text.now fault) }
{
    let offset = fault.offset().unwrap_or(0);
    let said = fault_said(alloc, text, fault)?;
    place_lines(alloc, lines_before, text, offset, &said)
}

/// A fault of a text in words.
fn fault_said(alloc: Global, text: &[u8], fault: ReadFault) -> Result<String, NoMemory>
    ensures { IfOk result (λ said. string_bytes said ≡ fault_said text.now fault) }
{
    match fault {
        ReadFault::Syntax { offset } => syntax_said(alloc, text, offset),
        ReadFault::LeftOut { offset, len } => left_out_said(alloc, text, offset, len),
        ReadFault::NotAbsolute { offset } => said_at(alloc, text, offset, fault),
        fault => plainly_said(alloc, fault),
    }
}

/// A fault as it is printed, and what may be done if a variable begins at its place.
fn said_at(alloc: Global, text: &[u8], offset: usize, fault: ReadFault) -> Result<String, NoMemory>
    ensures { IfOk result (λ said. string_bytes said ≡ fault_text fault ++ variable_advice (drop offset text.now)) }
{
    let (_, from) = parts_at(text, offset);
    let advice = variable_advice(from);
    match format!(in alloc; "{fault}{advice}") {
        Ok(said) => Ok(said),
        Err(_) => Err(NoMemory),
    }
}

/// A fault as it is printed.
fn plainly_said(alloc: Global, fault: ReadFault) -> Result<String, NoMemory>
    ensures { IfOk result (λ said. string_bytes said ≡ fault_text fault) }
{
    match format!(in alloc; "{fault}") {
        Ok(said) => Ok(said),
        Err(_) => Err(NoMemory),
    }
}

/// A fault of the grammar.
fn syntax_said(alloc: Global, text: &[u8], offset: usize) -> Result<String, NoMemory>
    ensures { IfOk result (λ said. string_bytes said ≡ fault_said text.now (ReadFault.Syntax offset)) }
{
    if is_comma_missing(alloc, text, offset)? {
        match format!(in alloc; "a comma is missing at byte {offset}") {
            Ok(said) => Ok(said),
            Err(_) => Err(NoMemory),
        }
    } else {
        said_at(alloc, text, offset, ReadFault::Syntax { offset })
    }
}

/// Whether the text up to a place is a profile's but for a comma and the brace that closes it.
fn is_comma_missing(alloc: Global, text: &[u8], offset: usize) -> Result<bool, NoMemory>
    ensures { IfOk result (λ missing. missing ≡ is_comma_missing text.now offset) }
{
    let (before, _) = parts_at(text, offset);
    let closed = closed_text(alloc, before)?;
    match read(alloc, &closed) {
        Ok(_) => Ok(true),
        Err(ReadFault::NoMemory) => Err(NoMemory),
        Err(_) => Ok(false),
    }
}

/// A text with a comma and a brace after it.
fn closed_text(alloc: Global, text: &[u8]) -> Result<Vec<u8>, NoMemory>
    ensures { IfOk result (λ closed. closed.items ≡ text.now ++ codes ",}") }
{
    let Ok(mut closed) = Vec::from_slice(alloc, text) else {
        return Err(NoMemory);
    };
    match closed.extend_from_slice(b",}") {
        Ok(()) => Ok(closed),
        Err(_) => Err(NoMemory),
    }
}

/// A fault of something that isn't supported: the `len` bytes from `offset` on.
fn left_out_said(alloc: Global, text: &[u8], offset: usize, len: usize) -> Result<String, NoMemory>
    ensures { IfOk result (λ said. string_bytes said ≡ fault_said text.now (ReadFault.LeftOut offset len)) }
{
    let (_, from) = parts_at(text, offset);
    let (word, _) = parts_at(from, len);
    let named = named(alloc, word)?;
    let advice = advice(word);
    match format!(in alloc; "not supported: {named} at byte {offset}{advice}") {
        Ok(said) => Ok(said),
        Err(_) => Err(NoMemory),
    }
}

/// A word of a text as it is shown, or the first 40 bytes of it.
pub fn named(alloc: Global, word: &[u8]) -> Result<String, NoMemory>
    ensures { IfOk result (λ name. string_bytes name ≡ named word.now) }
{
    let mut name = String::new(alloc);
    let (front, _) = parts_at(word, MOST_NAMED);
    push_shown(&mut name, front)?;
    Ok(name)
}
