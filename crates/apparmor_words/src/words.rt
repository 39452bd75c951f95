//! Blanks and words: where each ends.
ghost use Rattle.std.specs.Prelude.{◌≡◌, ◌<◌, ◌∷◌, length, false, [], None, IfSome, map};
ghost use Rattle.std.specs.List.{list_any};
ghost use Rattle.rule_reader.specs.TextBytes.{begins, opens_blank, is_word_byte, is_quote};
ghost use Rattle.rule_reader.specs.ReadWords.{leading, word, after_word, is_word};
ghost use Rattle.apparmor_words.specs.Statements.{is_one_of, past_byte, past_word};
ghost use Rattle.apparmor_words.specs.Steps.{syntax};
ghost use Rattle.apparmor_words.specs.Gives.{Reads};
ghost use Rattle.apparmor_words.specs.Words.{blank_at, comma_ends, is_doubtful, bare_at, word_end, begins_path, is_path};
ghost use Rattle.apparmor_words.specs.Words.{quote_opened, behind_byte, is_doubtful_quote, quoted_step, quoted_at};

use crate::bytes::{is_include, is_white};
use crate::stop::{Stop, StopKind, fault_here};

/// Returns what is left after any whitespace and comments.
pub fn after_blank(bytes: &[u8]) -> Result<&[u8], Stop<'_>>
    ensures { Reads (λ x. x.now) result (blank_at false bytes.now) }
{
    let mut rest = bytes;
    let mut comment = false;
    while let [byte, more @ ..] = rest {
        if comment {
            comment = *byte != b'\n';
        } else if *byte == b'#' {
            if is_include(rest) {
                return Err(fault_here(StopKind::Include, rest));
            }
            comment = true;
        } else if !is_white(*byte) {
            break;
        }
        rest = more;
    }
    Ok(rest)
}

/// Whether a blank of at least one byte begins here.
pub fn begins_gap(bytes: &[u8]) -> bool
    ensures { result ≡ begins opens_blank bytes.now }
{
    matches!(bytes, [byte, ..] if is_white(*byte) || *byte == b'#')
}

/// Whether a comma followed by these bytes ends a bare word.
pub(crate) fn comma_ends(behind: &[u8]) -> bool
    ensures { result ≡ comma_ends behind.now }
{
    match behind {
        [] => true,
        [byte, ..] => is_white(*byte) || matches!(byte, b'"' | b',' | b'!'),
    }
}

/// Whether AppArmor's parser may read a bare word with this byte, followed by these, in two ways: a backslash or a comma, another
/// backslash, and what would end the word.
pub(crate) fn is_doubtful(byte: u8, behind: &[u8]) -> bool
    ensures { result ≡ is_doubtful byte behind.now }
{
    match behind {
        [b'\\', more @ ..] => matches!(byte, b'\\' | b',') && comma_ends(more),
        _ => false,
    }
}

/// Returns what is left after a bare word.
fn after_bare(bytes: &[u8]) -> Result<&[u8], Stop<'_>>
    ensures { Reads (λ x. x.now) result (bare_at false bytes.now) }
{
    let mut rest = bytes;
    let mut escaped = false;
    while let [byte, more @ ..] = rest {
        match byte {
            0 => return Err(fault_here(StopKind::Syntax, rest)),
            _ if escaped => escaped = false,
            b'"' => break,
            b',' if comma_ends(more) => break,
            _ if is_white(*byte) => break,
            _ if is_doubtful(*byte, more) => return Err(fault_here(StopKind::Syntax, rest)),
            _ => escaped = *byte == b'\\',
        }
        rest = more;
    }
    Ok(rest)
}

/// What a byte of a word in quotes comes after.
#[derive(Clone, Copy)]
pub(crate) struct Quoted {
    /// A backslash that escapes the byte.
    escaped: bool,
    /// A backslash that another one escaped.
    doubled: bool,
}

impl Quoted {
    ghost use Rattle.std.specs.Prelude.{◌≡◌};
    ghost use Rattle.apparmor_words.specs.Words.{quote_opened, behind_byte, is_doubtful_quote};

    /// The quote that begins the word.
    pub(crate) const OPENED: Quoted = Quoted {
        escaped: false,
        doubled: false,
    };

    /// Whether a backslash escapes the byte.
    pub(crate) fn is_escaped(self) -> bool
        ensures { result ≡ self.escaped }
    {
        self.escaped
    }

    /// What the byte after this one comes after.
    pub(crate) fn behind(self, byte: u8) -> Quoted
        ensures { result ≡ behind_byte self byte }
    {
        Quoted {
            escaped: !self.escaped && byte == b'\\',
            doubled: self.escaped && byte == b'\\',
        }
    }

    /// Whether AppArmor's parser reads on at a quote that these bytes follow: it comes after two backslashes, and there is another.
    pub(crate) fn is_doubtful_quote(self, behind: &[u8]) -> bool
        ensures { result ≡ is_doubtful_quote self behind.now }
    {
        self.doubled && behind.contains(&b'"')
    }
}

/// Returns what the byte after the first of the bytes `from` comes after, in a word in quotes. `None` if the first one is the quote that
/// ends the word.
pub(crate) fn quoted_step<'t>(
    before: Quoted,
    byte: u8,
    behind: &'t [u8],
    from: &'t [u8],
) -> Result<Option<Quoted>, Stop<'t>>
    requires { from.now ≡ byte ∷ behind.now }
    ensures { Reads (λ x. x) result (quoted_step before byte behind.now) }
{
    match byte {
        0 | b'\n' => Err(fault_here(StopKind::Syntax, from)),
        b'"' if before.is_escaped() => Ok(Some(before.behind(byte))),
        b'"' if before.is_doubtful_quote(behind) => Err(fault_here(StopKind::Syntax, from)),
        b'"' => Ok(None),
        _ => Ok(Some(before.behind(byte))),
    }
}

/// Returns what is left after a word in quotes; the opening quote was already read.
fn after_quoted(bytes: &[u8]) -> Result<&[u8], Stop<'_>>
    ensures { Reads (λ x. x.now) result (quoted_at quote_opened bytes.now) }
{
    let mut before = Quoted::OPENED;
    let mut rest = bytes;
    while let [byte, behind @ ..] = rest {
        match quoted_step(before, *byte, behind, rest)? {
            Some(next) => before = next,
            None => return Ok(behind),
        }
        rest = behind;
    }
    Err(fault_here(StopKind::Syntax, rest))
}

/// Returns what is left after a word, in quotes or of at least one byte.
#[tactic(auto, unfolding(crate::specs::Words::word_end))]
pub fn after_word(bytes: &[u8]) -> Result<&[u8], Stop<'_>>
    ensures { Reads (λ x. x.now) result (word_end bytes.now) }
{
    if let [b'"', inside @ ..] = bytes {
        return after_quoted(inside);
    }
    let rest = after_bare(bytes)?;
    if rest.len() == bytes.len() {
        return Err(fault_here(StopKind::Syntax, bytes));
    }
    Ok(rest)
}

/// Whether a path begins here: `/` or `@{`.
fn begins_path(bytes: &[u8]) -> bool
    ensures { result ≡ begins_path bytes.now }
{
    bytes.starts_with(b"/") || bytes.starts_with(b"@{")
}

/// The same, in quotes or not.
pub fn is_path(bytes: &[u8]) -> bool
    ensures { result ≡ is_path bytes.now }
{
    match bytes {
        [b'"', inside @ ..] => begins_path(inside),
        _ => begins_path(bytes),
    }
}

/// Returns the number of letters, digits and `_` at the front.
fn word_length(bytes: &[u8]) -> usize
    ensures { result ≡ length (leading is_word_byte bytes.now) }
{
    let mut length = 0;
    while length < bytes.len() && (bytes[length].is_ascii_alphanumeric() || bytes[length] == b'_') {
        length += 1;
    }
    length
}

/// Returns the word at the front, of letters, digits and `_` beginning with a letter, and what is left after it.
#[tactic(auto, using(rule_reader::specs::laws::ReadRuns::leading_cut))]
pub fn cut_word(bytes: &[u8]) -> Option<(&[u8], &[u8])>
    ensures none { result ≡ None → word bytes.now ≡ [] }
    ensures some { IfSome result (λ x. (x.0.now ≡ word bytes.now) × (x.1.now ≡ after_word bytes.now) × (0 < length x.0.now)) }
{
    match bytes {
        [byte, ..] if byte.is_ascii_alphabetic() => Some(bytes.split_at(word_length(bytes))),
        _ => None,
    }
}

/// Returns the word at the front, or an empty one if there is none.
pub fn letter_word(bytes: &[u8]) -> &[u8]
    ensures { result.now ≡ word bytes.now }
{
    match cut_word(bytes) {
        Some((word, _)) => word,
        None => &[],
    }
}

/// Whether the word is one of these.
pub fn is_one_of(words: &[&str], word: &[u8]) -> bool
    ensures { result ≡ is_one_of (map (λ known. known.now) words.now) word.now }
{
    for known in words {
        if word == known.as_bytes() {
            return true;
        }
    }
    false
}

/// Whether this word is at the front.
pub fn is_word(wanted: &[u8], bytes: &[u8]) -> bool
    ensures { result ≡ is_word wanted.now bytes.now }
{
    letter_word(bytes) == wanted
}

/// Returns what is left after the word at the front.
pub fn past_word(bytes: &[u8]) -> Result<&[u8], Stop<'_>>
    ensures { Reads (λ x. x.now) result (past_word bytes.now) }
{
    match cut_word(bytes) {
        Some((_, rest)) => Ok(rest),
        None => Err(fault_here(StopKind::Syntax, bytes)),
    }
}

/// Returns what is left after this byte.
pub fn past_byte(byte: u8, bytes: &[u8]) -> Result<&[u8], Stop<'_>>
    ensures { Reads (λ x. x.now) result (past_byte byte bytes.now) }
{
    match bytes {
        [first, rest @ ..] if *first == byte => Ok(rest),
        _ => Err(fault_here(StopKind::Syntax, bytes)),
    }
}
