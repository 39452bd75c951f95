//! The names of profiles, and attachments.
ghost use Rattle.std.specs.Prelude.{◌≡◌, ◌≤◌, ℕ, List, length, take, drop, false, IfOk};
ghost use Rattle.rule_reader.specs.inner.Gives.{Gives};
ghost use Rattle.rule_reader.specs.ReadWords.{name_byte, name_bytes, name_in, quoted_name};

use super::bytes::is_white;
use super::local_fault::{Failure, FaultKind, fault_here, fault_with_left};
use super::words::after_literal;

/// What a byte is in a name.
#[derive(Clone, Copy)]
pub(crate) enum NameByte {
    OfName,
    /// The name ends before it.
    Ends,
    /// Not allowed in a name.
    Wrong,
}

/// What the byte is in a name, in quotes or not, and directly after a backslash or not.
fn name_byte(quoted: bool, escaped: bool, byte: u8) -> NameByte
    ensures { result ≡ name_byte quoted escaped byte }
{
    match byte {
        0 => NameByte::Wrong,
        b'\n' if quoted || escaped => NameByte::Wrong,
        _ if escaped => NameByte::OfName,
        b'"' if quoted => NameByte::Ends,
        b'"' => NameByte::Wrong,
        _ if !quoted && is_white(byte) => NameByte::Ends,
        _ => NameByte::OfName,
    }
}

/// How many bytes at the front are a name's, `room` at most. The fault of a longer name is at its first byte.
#[tactic(auto, unfolding(crate::specs::ReadWords::name_bytes))]
fn name_length(quoted: bool, room: usize, bytes: &[u8]) -> Result<usize, Failure>
    ensures gives { Gives (λ (n : ℕ). (take n bytes.now, drop n bytes.now)) result
        (name_bytes quoted (length bytes.now) false room bytes.now) }
    ensures fits { IfOk result (λ n. n ≤ length bytes.now) }
{
    let mut escaped = false;
    let mut length = 0;
    while length < bytes.len() {
        let byte = bytes[length];
        match name_byte(quoted, escaped, byte) {
            NameByte::OfName if length == room => {
                return Err(fault_with_left(FaultKind::Syntax, bytes.len(), &bytes[length..]));
            }
            NameByte::OfName => escaped = !escaped && byte == b'\\',
            NameByte::Ends => return Ok(length),
            NameByte::Wrong => return Err(fault_here(FaultKind::Syntax, &bytes[length..])),
        }
        length += 1;
    }
    if quoted || escaped {
        return Err(fault_here(FaultKind::Syntax, &[]));
    }
    Ok(length)
}

/// A name of at least one byte and at most `room`, and what is left after it.
#[tactic(auto, unfolding(crate::specs::ReadWords::name_in))]
pub(crate) fn name_of(quoted: bool, room: usize, bytes: &[u8]) -> Result<(&[u8], &[u8]), Failure>
    ensures { Gives (λ x. (x.0.now, x.1.now)) result (name_in quoted room bytes.now) }
{
    let length = name_length(quoted, room, bytes)?;
    let (name, rest) = bytes.split_at(length);
    if name.is_empty() {
        return Err(fault_here(FaultKind::Syntax, rest));
    }
    Ok((name, rest))
}

/// The same after an opening quote, and what is left after the closing one.
#[tactic(auto, unfolding(crate::specs::ReadWords::quoted_name))]
pub(crate) fn quoted_name_of(room: usize, bytes: &[u8]) -> Result<(&[u8], &[u8]), Failure>
    ensures { Gives (λ x. (x.0.now, x.1.now)) result (quoted_name room bytes.now) }
{
    let (name, rest) = name_of(true, room, bytes)?;
    let rest = after_literal(b"\"", rest)?;
    Ok((name, rest))
}
