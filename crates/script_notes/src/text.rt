//! Lines of notes.
ghost use Rattle.std.specs.Prelude.{◌≡◌, ◌++◌, IfOk, decimal, string_bytes};
ghost use Rattle.script_notes.specs.Lines.{ended};

use names::NoMemory;
use std::alloc::Global;

/// Adds lines, with the end of the last one.
pub(crate) fn put_ended(notes: &mut Vec<u8>, lines: &str) -> Result<(), NoMemory>
    ensures { IfOk result (λ _. notes.new.items ≡ notes.old.items ++ ended lines.now) }
{
    put(notes, lines.as_bytes())?;
    put(notes, b"\n")
}

/// Adds these bytes.
fn put(notes: &mut Vec<u8>, bytes: &[u8]) -> Result<(), NoMemory>
    ensures { IfOk result (λ _. notes.new.items ≡ notes.old.items ++ bytes.now) }
{
    match notes.extend_from_slice(bytes) {
        Ok(()) => Ok(()),
        Err(_) => Err(NoMemory),
    }
}

/// Two texts as one.
pub(crate) fn joined(alloc: Global, front: &str, rest: &str) -> Result<String, NoMemory>
    ensures { IfOk result (λ text. string_bytes text ≡ front.now ++ rest.now) }
{
    match format!(in alloc; "{front}{rest}") {
        Ok(text) => Ok(text),
        Err(_) => Err(NoMemory),
    }
}

/// A number between two texts.
pub(crate) fn numbered(
    alloc: Global,
    front: &str,
    number: u64,
    rest: &str,
) -> Result<String, NoMemory>
    ensures { IfOk result (λ text. string_bytes text ≡ front.now ++ (decimal number ++ rest.now)) }
{
    match format!(in alloc; "{front}{number}{rest}") {
        Ok(text) => Ok(text),
        Err(_) => Err(NoMemory),
    }
}
