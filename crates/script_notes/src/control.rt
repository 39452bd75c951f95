//! Control bytes in the words of a line.
ghost use Rattle.std.specs.Prelude.{◌≡◌, IfOk, string_bytes};
ghost use Rattle.script_notes.specs.ControlBytes.{control_said, first_control, is_control};

use crate::text::numbered;
use names::NoMemory;
use std::alloc::Global;

/// Whether a byte is a control byte that doesn't separate words.
fn is_control(byte: u8) -> bool
    ensures { result ≡ is_control byte }
{
    byte != b'\t' && (byte < b' ' || byte == 127)
}

/// The first control byte of a line.
pub(crate) fn first_control(line: &[u8]) -> Option<u8>
    ensures { result ≡ first_control line.now }
{
    for byte in line {
        if is_control(*byte) {
            return Some(*byte);
        }
    }
    None
}

/// What is said about a control byte.
pub(crate) fn control_said(alloc: Global, number: u64, byte: u8) -> Result<String, NoMemory>
    ensures { IfOk result (λ said. string_bytes said ≡ control_said number byte) }
{
    if byte == b'\r' {
        numbered(
            alloc,
            "line ",
            number,
            ": a CR ends or is in a word, to which it belongs",
        )
    } else {
        numbered(
            alloc,
            "line ",
            number,
            ": a control byte is in a word, to which it belongs",
        )
    }
}
