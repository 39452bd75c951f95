//! Texts in which `<<N TEXT>>`, `<<bytes B ..>>` and `<<words W ..>>` stand for what can't be read or is too long.
use std::alloc::{AllocError, Global};

/// The bytes that a text stands for. Of texts within others the inner one goes first.
pub(crate) fn expanded(alloc: Global, text: &str) -> Result<Vec<u8>, AllocError> {
    let mut bytes = Vec::new(alloc);
    let mut pieces = text.split(">>");
    if let Some(first) = pieces.next() {
        bytes.extend_from_slice(first.as_bytes())?;
    }
    for piece in pieces {
        close(alloc, &mut bytes)?;
        bytes.extend_from_slice(piece.as_bytes())?;
    }
    Ok(bytes)
}

/// Puts in place what comes after the last `<<`, at its `>>`.
fn close(alloc: Global, bytes: &mut Vec<u8>) -> Result<(), AllocError> {
    let Some(at) = bytes.windows(2).rposition(|two| two == b"<<".as_slice()) else {
        return bytes.extend_from_slice(b">>");
    };
    let inner = Vec::from_slice(alloc, bytes.get(at + 2..).unwrap_or(b""))?;
    bytes.truncate(at);
    let mut parts = inner.splitn(2, |byte| *byte == b' ');
    let word = text_of(parts.next());
    let rest = parts.next().unwrap_or(b"");
    match word {
        "bytes" => push_numbers(bytes, text_of(Some(rest)), 1),
        "words" => push_numbers(bytes, text_of(Some(rest)), 4),
        _ => push_times(bytes, rest, word.parse::<u32>().unwrap_or(1)),
    }
}

/// The text of bytes, or none.
fn text_of(bytes: Option<&[u8]>) -> &str {
    match bytes {
        Some(bytes) => str::from_utf8(bytes).unwrap_or(""),
        None => "",
    }
}

/// Adds numbers of `width` bytes, the lowest byte first; `N*B` are N of them.
fn push_numbers(bytes: &mut Vec<u8>, numbers: &str, size: usize) -> Result<(), AllocError> {
    for number in numbers.split_whitespace() {
        let (count, number) = number.split_once('*').unwrap_or(("1", number));
        let number = number.parse::<u32>().unwrap_or(0).to_le_bytes();
        let number = number.get(..size).unwrap_or(b"");
        push_times(bytes, number, count.parse::<u32>().unwrap_or(1))?;
    }
    Ok(())
}

/// Adds bytes, repeated.
fn push_times(bytes: &mut Vec<u8>, more: &[u8], count: u32) -> Result<(), AllocError> {
    for _ in 0..count {
        bytes.extend_from_slice(more)?;
    }
    Ok(())
}
