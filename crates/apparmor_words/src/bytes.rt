//! Classes of the bytes of a text, by what they may be part of.
ghost use Rattle.std.specs.Prelude.{◌≡◌};
ghost use Rattle.rule_reader.specs.TextBytes.{is_white, is_include};
ghost use Rattle.apparmor_words.specs.Statements.{is_space};

pub fn is_white(byte: u8) -> bool
    ensures { result ≡ is_white byte }
{
    matches!(byte, b' ' | b'\t' | b'\n' | b'\r')
}

/// Whether the byte is a space or a tab.
pub fn is_space(byte: u8) -> bool
    ensures { result ≡ is_space byte }
{
    matches!(byte, b' ' | b'\t')
}

/// Whether the bytes begin with the word `#include` and a byte that makes it more than a comment.
pub fn is_include(bytes: &[u8]) -> bool
    ensures { result ≡ is_include bytes.now }
{
    bytes.starts_with(b"#include") && matches!(bytes.get(8), Some(b' ' | b'\t' | b'<' | b'"'))
}
