//! Words that may be in quotes.
ghost use Rattle.std.specs.Prelude.{◌≡◌, ◌≢◌, ◌<◌, ℕ, List, IfOk, IfSome, MatchOption, None, [], length, slice_index};
ghost use Rattle.std.specs.List.{prefix_len};
ghost use Rattle.trace_script.specs.Script.{is_blank};
ghost use Rattle.test_script.specs.TestScript.{closed, escape, escaped, hex, hex_digit, quote};
ghost use Rattle.test_script.specs.TestScript.{quoted, quoted_words, with_word, words_from};
ghost use Rattle.test_script.specs.inner.Words.{IsShorter, escape_value, is_parted, piece_words};
ghost use Rattle.test_script.specs.LineValues.{words_value};

use names::{skip, split_at};
use std::alloc::{AllocError, Global};
use trace_script::{Blank, is_blank};

/// The words of a line, unless a quote is left open, an escape isn't known, or something directly follows a closing quote.
pub fn quoted_words(alloc: Global, line: &[u8]) -> Result<Option<Vec<Vec<u8>>>, AllocError>
    ensures { IfOk result (λ words. words_value words ≡ quoted_words line.now) }
{
    let mut words = Vec::new(alloc);
    let mut left = skip::<Blank>(line);
    while !left.is_empty() {
        let Some((word, rest)) = next_word(alloc, left)? else {
            return Ok(None);
        };
        words.push(word)?;
        left = skip::<Blank>(rest);
    }
    Ok(Some(words))
}

/// The word that a line begins with, and what follows it.
fn next_word(alloc: Global, line: &[u8]) -> Result<Option<(Vec<u8>, &[u8])>, AllocError>
    requires some { 0 < length line.now }
    requires at_word { prefix_len is_blank line.now ≡ 0 }
    ensures word { IfOk result (λ found. MatchOption found (quoted_words line.now ≡ None)
        (λ pair. quoted_words line.now ≡ with_word pair.0.items (quoted_words pair.1.now))) }
    ensures shorter { IfOk result (λ found. IfSome found (λ pair. length pair.1.now < length line.now)) }
{
    if line[0] == b'"' {
        quoted_word(alloc, &line[1..])
    } else {
        bare_word(alloc, line)
    }
}

/// The word up to the next blank.
fn bare_word(alloc: Global, line: &[u8]) -> Result<Option<(Vec<u8>, &[u8])>, AllocError>
    requires some { 0 < length line.now }
    requires at_word { prefix_len is_blank line.now ≡ 0 }
    requires bare { slice_index line.now 0 ≢ quote }
    ensures word { IfOk result (λ found. MatchOption found (quoted_words line.now ≡ None)
        (λ pair. quoted_words line.now ≡ with_word pair.0.items (quoted_words pair.1.now))) }
    ensures shorter { IfOk result (λ found. IfSome found (λ pair. length pair.1.now < length line.now)) }
{
    let (word, rest) = split_at::<Blank>(line);
    let word = Vec::from_slice(alloc, word)?;
    Ok(Some((word, rest)))
}

/// The word up to the closing quote, and what follows the quote.
fn quoted_word(alloc: Global, bytes: &[u8]) -> Result<Option<(Vec<u8>, &[u8])>, AllocError>
    ensures word { IfOk result (λ found. MatchOption found (words_from (quoted []) bytes.now ≡ None)
        (λ pair. words_from (quoted []) bytes.now ≡ with_word pair.0.items (quoted_words pair.1.now))) }
    ensures shorter { IfOk result (λ found. IfSome found (λ pair. length pair.1.now < length bytes.now)) }
{
    let mut word = Vec::new(alloc);
    let mut left = bytes;
    while !left.is_empty() {
        match next_piece(left) {
            Piece::Byte(byte, rest) => {
                word.push(byte)?;
                left = rest;
            }
            Piece::End(rest) => return Ok(ended_word(word, rest)),
            Piece::Bad => return Ok(None),
        }
    }
    Ok(None)
}

/// A word and what follows its closing quote, if it ends there.
fn ended_word(word: Vec<u8>, rest: &[u8]) -> Option<(Vec<u8>, &[u8])>
    ensures { MatchOption result (words_from closed rest.now ≡ None)
        (λ pair. (pair.0.items ≡ word.items) × (pair.1.now ≡ rest.now) × (words_from closed rest.now ≡ quoted_words rest.now)) }
{
    if is_parted(rest) {
        Some((word, rest))
    } else {
        None
    }
}

/// What a word in quotes goes on with.
#[derive(Clone, Copy)]
enum Piece<'a> {
    /// A byte of the word, and what follows it.
    Byte(u8, &'a [u8]),
    /// The closing quote, and what follows it.
    End(&'a [u8]),
    /// Nothing that a word may go on with.
    Bad,
}

/// What a word in quotes goes on with.
fn next_piece(left: &[u8]) -> Piece<'_>
    ensures words { (word : List ℕ) → words_from (quoted word) left.now ≡ piece_words word result }
    ensures shorter { IsShorter result (length left.now) }
{
    let [byte, rest @ ..] = left else {
        return Piece::Bad;
    };
    if *byte == b'"' {
        return Piece::End(rest);
    }
    if *byte == b'\\' {
        return escaped_piece(rest);
    }
    Piece::Byte(*byte, rest)
}

/// What a word in quotes goes on with after a backslash.
fn escaped_piece(left: &[u8]) -> Piece<'_>
    ensures words { (word : List ℕ) → words_from (escaped word) left.now ≡ piece_words word result }
    ensures shorter { IsShorter result (length left.now) }
{
    let [byte, rest @ ..] = left else {
        return Piece::Bad;
    };
    match escape(*byte) {
        EscapeKind::Hex => hex_piece(rest),
        EscapeKind::Byte(escaped) => Piece::Byte(escaped, rest),
        EscapeKind::Unknown => Piece::Bad,
    }
}

/// The byte of two digits of base 16.
fn hex_piece(left: &[u8]) -> Piece<'_>
    ensures words { (word : List ℕ) → words_from (hex word) left.now ≡ piece_words word result }
    ensures shorter { IsShorter result (length left.now) }
{
    let [high, low, rest @ ..] = left else {
        return Piece::Bad;
    };
    let (Some(high), Some(low)) = (hex_digit(*high), hex_digit(*low)) else {
        return Piece::Bad;
    };
    Piece::Byte(16 * high + low, rest)
}

/// What a byte says after a backslash.
#[derive(Clone, Copy)]
enum EscapeKind {
    /// Two digits of base 16 follow.
    Hex,
    /// It stands for this byte.
    Byte(u8),
    /// Nothing.
    Unknown,
}

/// What a byte says after a backslash.
fn escape(byte: u8) -> EscapeKind
    ensures { escape_value result ≡ escape byte }
{
    if byte == b'x' {
        return EscapeKind::Hex;
    }
    if byte == b'"' {
        return EscapeKind::Byte(b'"');
    }
    if byte == b'\\' {
        return EscapeKind::Byte(b'\\');
    }
    if byte == b'n' {
        return EscapeKind::Byte(b'\n');
    }
    EscapeKind::Unknown
}

/// The value of a digit of base 16.
fn hex_digit(byte: u8) -> Option<u8>
    ensures value { result ≡ hex_digit byte }
    ensures low { IfSome result (λ digit. digit < 16) }
{
    if b'0' <= byte && byte <= b'9' {
        return Some(byte - b'0');
    }
    if b'A' <= byte && byte <= b'F' {
        return Some(byte - b'A' + 10);
    }
    if b'a' <= byte && byte <= b'f' {
        return Some(byte - b'a' + 10);
    }
    None
}

/// Whether a word ends before these bytes.
fn is_parted(rest: &[u8]) -> bool
    ensures { result ≡ is_parted rest.now }
{
    match rest {
        [] => true,
        [b, ..] => is_blank(*b),
    }
}
