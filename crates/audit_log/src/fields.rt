//! The fields of a line.
ghost use Rattle.std.specs.Prelude.{◌≡◌, IfOk, false, option_map, true};
ghost use Rattle.audit_log.specs.Fields.{after_key, given_text, quoted_value, text_at, text_of, word_at, word_of};

use crate::digits::{copied, text_of_word};
use names::{NoMemory, Separator, split_at};
use std::alloc::Global;

/// The bytes between fields: blanks and control bytes.
struct Gap;

impl Separator for Gap {
    ghost use Rattle.audit_log.specs.Fields.{is_gap};

    ghost separates = { is_gap };

    fn separates(byte: u8) -> bool {
        byte <= b' '
    }
}

/// The byte before and after a quoted value.
struct Quote;

impl Separator for Quote {
    ghost use Rattle.audit_log.specs.Fields.{is_quote};

    ghost separates = { is_quote };

    fn separates(byte: u8) -> bool {
        byte == b'"'
    }
}

/// What follows the first place of the line with this key, which ends with an equals sign: at the line's beginning or after a gap,
/// and not within quotes.
fn after_key<'a>(line: &'a [u8], key: &[u8]) -> Option<&'a [u8]>
    ensures { option_map (λ value. value.now) result ≡ after_key key.now true false line.now }
{
    let mut front = true;
    let mut quoted = false;
    for (i, byte) in line.iter().enumerate() {
        if front {
            if let Some(value) = line.split_at(i).1.strip_prefix(key) {
                return Some(value);
            }
        }
        front = !quoted && *byte <= b' ';
        if *byte == b'"' {
            quoted = !quoted;
        }
    }
    None
}

/// A value in quotes, without them, given what follows the first one. There is none if the last one is missing.
fn quoted_value(bytes: &[u8]) -> Option<&[u8]>
    ensures { option_map (λ value. value.now) result ≡ quoted_value bytes.now }
{
    match split_at::<Quote>(bytes) {
        (value, [b'"', ..]) => Some(value),
        _ => None,
    }
}

/// The value that begins here, as it is written: in quotes, without them, or up to the next gap.
fn word_at(bytes: &[u8]) -> Option<&[u8]>
    ensures { option_map (λ value. value.now) result ≡ word_at bytes.now }
{
    match bytes {
        [b'"', after @ ..] => quoted_value(after),
        _ => Some(split_at::<Gap>(bytes).0),
    }
}

/// The text that begins here: in quotes as it is written, otherwise by its hex digits.
fn text_at(alloc: Global, bytes: &[u8]) -> Result<Option<Vec<u8>>, NoMemory>
    ensures { IfOk result (λ text. option_map (λ t. t.items) text ≡ text_at bytes.now) }
{
    match bytes {
        [b'"', after @ ..] => match quoted_value(after) {
            Some(value) => Ok(Some(copied(alloc, value)?)),
            None => Ok(None),
        },
        _ => Ok(Some(text_of_word(alloc, split_at::<Gap>(bytes).0)?)),
    }
}

/// The value of the field with this key, as it is written.
pub(crate) fn word_of<'a>(line: &'a [u8], key: &[u8]) -> Option<&'a [u8]>
    ensures { option_map (λ value. value.now) result ≡ word_of key.now line.now }
{
    match after_key(line, key) {
        Some(value) => word_at(value),
        None => None,
    }
}

/// The text of the field with this key.
pub(crate) fn text_of(alloc: Global, line: &[u8], key: &[u8]) -> Result<Option<Vec<u8>>, NoMemory>
    ensures { IfOk result (λ text. option_map (λ t. t.items) text ≡ text_of key.now line.now) }
{
    match after_key(line, key) {
        Some(value) => text_at(alloc, value),
        None => Ok(None),
    }
}

/// The text of the field with this key, or no text if there is no such field. There is neither if its last quote is missing.
pub(crate) fn given_text(
    alloc: Global,
    line: &[u8],
    key: &[u8],
) -> Result<Option<Option<Vec<u8>>>, NoMemory>
    ensures { IfOk result (λ given. option_map (option_map (λ t. t.items)) given ≡ given_text key.now line.now) }
{
    let Some(value) = after_key(line, key) else {
        return Ok(Some(None));
    };
    match text_at(alloc, value)? {
        Some(text) => Ok(Some(Some(text))),
        None => Ok(None),
    }
}
