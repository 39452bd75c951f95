//! The mode of a profile, by its flags.
ghost use Rattle.std.specs.Prelude.{◌≡◌, ◌==◌, length, not};
ghost use Rattle.rule_reader.specs.ReadWords.{leading, after};
ghost use Rattle.apparmor_words.specs.Conditions.{is_flag_byte, parts_flags};
ghost use Rattle.import_spans.specs.Modes.{flag_mode, more_permissive, mode_of_flags, part_mode, mode_of_head};

use apparmor_rules::Mode;
use apparmor_text::{Part, PartKind};
use apparmor_words::is_allowing_flag;

/// The mode that a flag stands for.
fn flag_mode(word: &[u8]) -> Mode
    ensures { result ≡ flag_mode word.now }
{
    if word == b"unconfined".as_slice() {
        Mode::Unconfined
    } else if is_allowing_flag(word) {
        Mode::Permissive
    } else {
        Mode::Enforcing
    }
}

/// The one of two modes that allows more.
fn more_permissive(mode: Mode, other: Mode) -> Mode
    ensures { result ≡ more_permissive mode other }
{
    match (mode, other) {
        (Mode::Enforcing, _) | (Mode::Permissive, Mode::Unconfined) => other,
        _ => mode,
    }
}

/// Whether the byte separates flags.
fn parts_flags(byte: u8) -> bool
    ensures { result ≡ parts_flags byte }
{
    matches!(byte, b' ' | b'\t' | b'\n' | b'\r' | b',' | b'(' | b')')
}

/// The bytes from the first opening parenthesis on.
fn from_parenthesis(bytes: &[u8]) -> &[u8]
    ensures { result.now ≡ after (λ b. not (b == 40)) bytes.now }
{
    let mut rest = bytes;
    while let [byte, more @ ..] = rest
        && *byte != b'('
    {
        rest = more;
    }
    rest
}

/// The length of the flag at the front.
fn flag_length(bytes: &[u8]) -> usize
    ensures { result ≡ length (leading is_flag_byte bytes.now) }
{
    let mut length = 0;
    while length < bytes.len() && !parts_flags(bytes[length]) {
        length += 1;
    }
    length
}

/// The flag at the front.
#[tactic(auto, using(rule_reader::specs::laws::ReadRuns::leading_cut))]
fn flag_here(bytes: &[u8]) -> &[u8]
    ensures { result.now ≡ leading is_flag_byte bytes.now }
{
    bytes.split_at(flag_length(bytes)).0
}

/// The mode of a list of flags, all of which are known: of several, the one that allows most.
pub fn mode_of_flags(bytes: &[u8]) -> Mode
    ensures { result ≡ mode_of_flags bytes.now }
{
    let mut mode = Mode::Enforcing;
    let mut begins = true;
    let mut rest = from_parenthesis(bytes);
    while let [byte, more @ ..] = rest {
        let parts = parts_flags(*byte);
        if begins && !parts {
            mode = more_permissive(mode, flag_mode(flag_here(rest)));
        }
        begins = parts;
        rest = more;
    }
    mode
}

/// The mode of a part of a head: that of its flags, or `Enforcing` if it isn't of flags.
fn part_mode(part: &Part<'_>) -> Mode
    ensures { result ≡ part_mode part.now.kind part.now.bytes }
{
    match part.kind() {
        PartKind::Flags => mode_of_flags(part.bytes()),
        _ => Mode::Enforcing,
    }
}

/// The mode of a profile with a head of these parts.
pub fn mode_of_head(parts: &[Part<'_>]) -> Mode
    ensures { result ≡ mode_of_head parts.now }
{
    let mut mode = Mode::Enforcing;
    for part in parts {
        mode = more_permissive(mode, part_mode(part));
    }
    mode
}
