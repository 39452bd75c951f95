//! Extended attributes and flags in the head of a profile.
ghost use Rattle.std.specs.Prelude.{◌≡◌, ◌==◌, length, find, false, map, not, option_map};
ghost use Rattle.rule_reader.specs.TextBytes.{is_white};
ghost use Rattle.rule_reader.specs.ReadWords.{leading, after};
ghost use Rattle.apparmor_words.specs.Conditions.{parentheses_at, past_parentheses, past_condition, parts_flags, is_flag, is_flag_byte};
ghost use Rattle.apparmor_words.specs.Conditions.{begins_with_one_of, is_valued_flag};
ghost use Rattle.apparmor_words.specs.Words.{quote_opened};
ghost use Rattle.apparmor_words.specs.Conditions.{allowing_flags, unknown_flag};
ghost use Rattle.apparmor_words.specs.Statements.{is_one_of};
ghost use Rattle.apparmor_words.specs.Gives.{Reads};

use crate::bytes::is_white;
use crate::stop::{Stop, StopKind, fault_here};
use crate::words::{Quoted, is_one_of, past_byte};

/// Returns what is left after the closing parenthesis; the opening one was already read.
fn after_inside(bytes: &[u8]) -> Result<&[u8], Stop<'_>>
    ensures { Reads (λ x. x.now) result (parentheses_at false quote_opened bytes.now) }
{
    let mut rest = bytes;
    let mut quoted = false;
    let mut before = Quoted::OPENED;
    while let [byte, more @ ..] = rest {
        match byte {
            0 => break,
            b'\n' if quoted => break,
            b')' if !quoted => return Ok(more),
            b'"' if before.is_doubtful_quote(more) => break,
            b'"' if !before.is_escaped() => quoted = !quoted,
            _ => {}
        }
        before = before.behind(*byte);
        rest = more;
    }
    Err(fault_here(StopKind::Syntax, rest))
}

/// Returns what is left after parentheses.
pub fn after_parentheses(bytes: &[u8]) -> Result<&[u8], Stop<'_>>
    ensures { Reads (λ x. x.now) result (past_parentheses bytes.now) }
{
    after_inside(past_byte(b'(', bytes)?)
}

/// Returns what is left after any whitespace.
pub fn after_white(bytes: &[u8]) -> &[u8]
    ensures { result.now ≡ after is_white bytes.now }
{
    let mut rest = bytes;
    while let [byte, more @ ..] = rest
        && is_white(*byte)
    {
        rest = more;
    }
    rest
}

/// Returns what is left after `=`, possibly surrounded by whitespace, and parentheses.
pub fn after_condition(bytes: &[u8]) -> Result<&[u8], Stop<'_>>
    ensures { Reads (λ x. x.now) result (past_condition bytes.now) }
{
    let rest = past_byte(b'=', after_white(bytes))?;
    after_parentheses(after_white(rest))
}

/// Whether the byte separates flags.
fn parts_flags(byte: u8) -> bool
    ensures { result ≡ parts_flags byte }
{
    is_white(byte) || matches!(byte, b',' | b'(' | b')')
}

/// The flags that allow what no rule allows.
const ALLOWING_FLAGS: [&str; 4] = ["complain", "unconfined", "default_allow", "prompt"];

/// The flags that don't.
const OTHER_FLAGS: [&str; 13] = [
    "enforce",
    "kill",
    "audit",
    "attach_disconnected",
    "no_attach_disconnected",
    "mediate_deleted",
    "delegate_deleted",
    "chroot_relative",
    "namespace_relative",
    "chroot_attach",
    "chroot_no_attach",
    "debug",
    "interruptible",
];

/// What flags with a value begin with that don't either, in which there are no quotes.
const VALUED_FLAGS: [&str; 3] = ["kill.signal=", "error=", "attach_disconnected.path="];

/// Whether the word begins with one of these.
fn begins_with_one_of(fronts: &[&str], word: &[u8]) -> bool
    ensures { result ≡ begins_with_one_of (map (λ front. front.now) fronts.now) word.now }
{
    for front in fronts {
        if word.starts_with(front.as_bytes()) {
            return true;
        }
    }
    false
}

/// Whether the flag allows what no rule allows.
pub fn is_allowing_flag(word: &[u8]) -> bool
    ensures { result ≡ is_one_of allowing_flags word.now }
{
    is_one_of(&ALLOWING_FLAGS, word)
}

/// Whether the word is a known flag with a value. A quote would begin another flag.
fn is_valued_flag(word: &[u8]) -> bool
    ensures { result ≡ is_valued_flag word.now }
{
    begins_with_one_of(&VALUED_FLAGS, word) && !word.contains(&b'"')
}

/// Whether the flag is known.
fn is_flag(word: &[u8]) -> bool
    ensures { result ≡ is_flag word.now }
{
    is_allowing_flag(word) || is_one_of(&OTHER_FLAGS, word) || is_valued_flag(word)
}

/// Returns the bytes from the first opening parenthesis on.
fn from_parenthesis(bytes: &[u8]) -> &[u8]
    ensures { result.now ≡ after (λ b. not (b == 40)) bytes.now }
{
    let mut rest = bytes;
    while let [byte, more @ ..] = rest
        && *byte != b'('
    {
        rest = more;
    }
    rest
}

/// Returns the number of flag bytes at the front.
fn flag_length(bytes: &[u8]) -> usize
    ensures { result ≡ length (leading is_flag_byte bytes.now) }
{
    let mut length = 0;
    while length < bytes.len() && !parts_flags(bytes[length]) {
        length += 1;
    }
    length
}

/// Returns the flag at the front.
#[tactic(auto, using(rule_reader::specs::laws::ReadRuns::leading_cut))]
fn flag_here(bytes: &[u8]) -> &[u8]
    ensures { result.now ≡ leading is_flag_byte bytes.now }
{
    bytes.split_at(flag_length(bytes)).0
}

/// Returns the first unknown flag of a list.
pub fn unknown_flag(bytes: &[u8]) -> Option<&[u8]>
    ensures { option_map (λ w. w.now) result ≡ unknown_flag bytes.now }
{
    let mut begins = true;
    let mut rest = from_parenthesis(bytes);
    while let [byte, more @ ..] = rest {
        let parts = parts_flags(*byte);
        if begins && !parts {
            let flag = flag_here(rest);
            if !is_flag(flag) {
                return Some(flag);
            }
        }
        begins = parts;
        rest = more;
    }
    None
}
