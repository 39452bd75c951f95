//! Names as they are shown.
ghost use Rattle.std.specs.Prelude.{◌≡◌, ◌++◌, IfOk, OnOk};
ghost use Rattle.trace_questions.specs.Shown.{is_plain, octal, shown_byte, shown_name};

use crate::answer::put;
use names::NoMemory;
use std::alloc::Global;

/// A name as it is shown: a control byte and a backslash by their numbers in octal, so that a name is one line and drives no
/// terminal.
pub(crate) fn shown_name(alloc: Global, name: &[u8]) -> Result<Vec<u8>, NoMemory>
    ensures { IfOk result (λ text. text.items ≡ shown_name name.now) }
{
    let mut text = Vec::new(alloc);
    for byte in name {
        put_byte(&mut text, *byte)?;
    }
    Ok(text)
}

// Appends a byte as it is shown.
fn put_byte(text: &mut Vec<u8>, byte: u8) -> Result<(), NoMemory>
    ensures { OnOk result (text.new.items ≡ text.old.items ++ shown_byte byte) }
{
    if is_plain(byte) {
        put(text, &[byte])
    } else {
        put(text, &octal(byte))
    }
}

// Whether a byte is shown as it is.
fn is_plain(byte: u8) -> bool
    ensures { result ≡ is_plain byte }
{
    !byte.is_ascii_control() && byte != b'\\'
}

// A backslash, and three octal digits.
fn octal(byte: u8) -> [u8; 4]
    ensures { result ≡ octal byte }
{
    [
        b'\\',
        b'0' + byte / 64,
        b'0' + byte / 8 % 8,
        b'0' + byte % 8,
    ]
}
