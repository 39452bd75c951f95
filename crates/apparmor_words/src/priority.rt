//! The priority of a rule: `priority=N`.
ghost use Rattle.std.specs.Prelude.{◌≡◌};
ghost use Rattle.std.specs.Char.{is_ascii_digit};
ghost use Rattle.rule_reader.specs.ReadWords.{after};
ghost use Rattle.apparmor_words.specs.Gives.{Reads};
ghost use Rattle.apparmor_words.specs.Priorities.{past_sign, past_digits, number_at, past_priority, has_size, is_raised};

use crate::condition::after_white;
use crate::stop::{Stop, StopKind, fault_here};
use crate::words::{is_word, past_byte, past_word};

/// Returns what is left after the digits at the front.
fn after_leading_digits(bytes: &[u8]) -> &[u8]
    ensures { result.now ≡ after is_ascii_digit bytes.now }
{
    let mut rest = bytes;
    while let [byte, more @ ..] = rest
        && byte.is_ascii_digit()
    {
        rest = more;
    }
    rest
}

/// Returns what is left after a sign, if one is here.
pub fn after_sign(bytes: &[u8]) -> &[u8]
    ensures { result.now ≡ past_sign bytes.now }
{
    match bytes {
        [b'+' | b'-', rest @ ..] => rest,
        _ => bytes,
    }
}

/// Returns what is left after a number without a sign.
fn after_digits(bytes: &[u8]) -> Result<&[u8], Stop<'_>>
    ensures { Reads (λ x. x.now) result (past_digits bytes.now) }
{
    match bytes {
        [digit, ..] if digit.is_ascii_digit() => Ok(after_leading_digits(bytes)),
        _ => Err(fault_here(StopKind::Syntax, bytes)),
    }
}

/// Returns the bytes from a priority's number on; its word is here.
fn number_at(bytes: &[u8]) -> Result<&[u8], Stop<'_>>
    ensures { Reads (λ x. x.now) result (number_at bytes.now) }
{
    let number = past_byte(b'=', after_white(past_word(bytes)?))?;
    Ok(after_white(number))
}

/// Returns what is left after a priority, whose word is here.
pub fn after_priority(bytes: &[u8]) -> Result<&[u8], Stop<'_>>
    ensures { Reads (λ x. x.now) result (past_priority bytes.now) }
{
    after_digits(after_sign(number_at(bytes)?))
}

/// Whether some digit at the front isn't 0.
fn has_size(bytes: &[u8]) -> bool
    ensures { result ≡ has_size bytes.now }
{
    let mut rest = bytes;
    while let [byte, more @ ..] = rest
        && byte.is_ascii_digit()
    {
        if *byte != b'0' {
            return true;
        }
        rest = more;
    }
    false
}

/// Whether a priority over 0 is here.
pub fn is_raised(bytes: &[u8]) -> bool
    ensures { result ≡ is_raised bytes.now }
{
    if !is_word(b"priority", bytes) {
        return false;
    }
    match number_at(bytes) {
        Ok(number) => !number.starts_with(b"-") && has_size(after_sign(number)),
        Err(_) => false,
    }
}
