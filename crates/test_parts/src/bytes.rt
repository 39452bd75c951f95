//! Bytes that aren't written as they are.
use std::alloc::{AllocError, Global};

/// The bytes that a text stands for. They are its own, except that `⟨HH⟩` stands for the byte with these two hexadecimal digits, and
/// `⟪N×PART⟫` for what PART stands for, N times. Anything else between such brackets stands for itself.
pub fn bytes_of(alloc: Global, text: &str) -> Result<Vec<u8>, AllocError> {
    let mut bytes = Vec::new(alloc);
    let mut is_first = true;
    for piece in text.split('⟪') {
        if is_first {
            push_part(&mut bytes, piece)?;
        } else {
            push_piece(&mut bytes, piece)?;
        }
        is_first = false;
    }
    Ok(bytes)
}

/// Adds what a text stands for that follows an opening double bracket.
fn push_piece(bytes: &mut Vec<u8>, piece: &str) -> Result<(), AllocError> {
    match repetition(piece) {
        Some((count, part, rest)) => {
            push_repeated(bytes, part, count)?;
            push_part(bytes, rest)
        }
        None => {
            push_itself(bytes, "⟪")?;
            push_part(bytes, piece)
        }
    }
}

/// The number, the part and what follows the closing double bracket.
fn repetition(piece: &str) -> Option<(u32, &str, &str)> {
    let (short, rest) = piece.split_once('⟫')?;
    let (count, part) = short.split_once('×')?;
    Some((count.parse().ok()?, part, rest))
}

fn push_repeated(bytes: &mut Vec<u8>, part: &str, count: u32) -> Result<(), AllocError> {
    for _ in 0..count {
        push_part(bytes, part)?;
    }
    Ok(())
}

/// Adds what a text without double brackets stands for.
fn push_part(bytes: &mut Vec<u8>, part: &str) -> Result<(), AllocError> {
    let mut is_first = true;
    for piece in part.split('⟨') {
        if is_first {
            push_itself(bytes, piece)?;
        } else {
            push_byte(bytes, piece)?;
        }
        is_first = false;
    }
    Ok(())
}

/// Adds what a text stands for that follows an opening bracket.
fn push_byte(bytes: &mut Vec<u8>, piece: &str) -> Result<(), AllocError> {
    match byte_and_rest(piece) {
        Some((byte, rest)) => {
            bytes.push(byte)?;
            push_itself(bytes, rest)
        }
        None => {
            push_itself(bytes, "⟨")?;
            push_itself(bytes, piece)
        }
    }
}

/// The byte, and what follows the closing bracket.
fn byte_and_rest(piece: &str) -> Option<(u8, &str)> {
    let (digits, rest) = piece.split_once('⟩')?;
    Some((u8::from_str_radix(digits, 16).ok()?, rest))
}

fn push_itself(bytes: &mut Vec<u8>, text: &str) -> Result<(), AllocError> {
    bytes.extend_from_slice(text.as_bytes())
}
