//! The bytes of a text, by what they may be a part of.
ghost use Rattle.std.specs.Prelude.{◌≡◌};
ghost use Rattle.rule_reader.specs.TextBytes.{is_white, is_word_byte, is_include, ends_behind_comma};
ghost use Rattle.rule_reader.specs.TextBytes as tests;

pub(crate) fn is_white(byte: u8) -> bool
    ensures { result ≡ is_white byte }
{
    matches!(byte, b' ' | b'\t' | b'\n' | b'\r')
}

/// A byte of a word: an ASCII letter or digit, or `_`.
pub(crate) fn is_word_byte(byte: u8) -> bool
    ensures { result ≡ is_word_byte byte }
{
    byte.is_ascii_alphanumeric() || byte == b'_'
}

/// The word `#include` and a byte that makes it more than a comment.
pub(crate) fn is_include(bytes: &[u8]) -> bool
    ensures { result ≡ is_include bytes.now }
{
    bytes.starts_with(b"#include") && matches!(bytes.get(8), Some(b' ' | b'\t' | b'<' | b'"'))
}

/// A byte after a comma that ends a bare path.
pub(crate) fn ends_behind_comma(byte: u8) -> bool
    ensures { result ≡ ends_behind_comma byte }
{
    is_white(byte) || matches!(byte, b'#' | b'}' | b'"' | b',')
}
