//! What comes before a profile's rules.
ghost use Rattle.std.specs.Prelude.{◌≡◌, ℕ, List};
ghost use Rattle.rule_reader.specs.inner.Gives.{Gives};
ghost use Rattle.rule_reader.specs.ReadWords.{after_word};
ghost use Rattle.rule_reader.specs.ReadHeader.{slash_name_at, name_at, attachment_at, brace_at, named_header_at, slash_header_at};
ghost use Rattle.rule_reader.specs.ReadHeader.{header_at};

use super::local_fault::{Failure, FaultKind, fault_here};
use super::name::{name_of, quoted_name_of};
use super::words::{after_gap, word_left_out, word_of};
use rule_profile::LONGEST_PROFILE_NAME;

/// A name that begins with a slash, and what is left after it.
#[tactic(auto, unfolding(crate::specs::ReadHeader::slash_name_at))]
fn slash_name_of(room: usize, bytes: &[u8]) -> Result<(&[u8], &[u8]), Failure>
    ensures { Gives (λ x. (x.0.now, x.1.now)) result (slash_name_at room bytes.now) }
{
    match bytes {
        [b'/', ..] => name_of(false, room, bytes),
        [b'"', inside @ ..] => match inside {
            [b'/', ..] => quoted_name_of(room, inside),
            _ => Err(fault_here(FaultKind::Syntax, inside)),
        },
        _ => Err(fault_here(FaultKind::Syntax, bytes)),
    }
}

/// The name after the word `profile`, and what is left after it.
#[tactic(auto, unfolding(crate::specs::ReadHeader::name_at))]
fn profile_name_of(bytes: &[u8]) -> Result<(&[u8], &[u8]), Failure>
    ensures { Gives (λ x. (x.0.now, x.1.now)) result (name_at bytes.now) }
{
    match bytes {
        [b'"', inside @ ..] => match inside {
            [b':', ..] => Err(fault_here(FaultKind::LeftOut(1), inside)),
            _ => quoted_name_of(LONGEST_PROFILE_NAME, inside),
        },
        [b':', ..] => Err(fault_here(FaultKind::LeftOut(1), bytes)),
        [b'{' | b'}' | b',' | b'#', ..] => Err(fault_here(FaultKind::Syntax, bytes)),
        _ => name_of(false, LONGEST_PROFILE_NAME, bytes),
    }
}

/// What is left after an attachment and the gap after it, if there is one here.
#[tactic(auto, unfolding(crate::specs::ReadHeader::attachment_at))]
fn after_attachment(bytes: &[u8]) -> Result<&[u8], Failure>
    ensures { Gives (λ x. x.now) result (attachment_at bytes.now) }
{
    match bytes {
        [b'/' | b'"', ..] => {
            let (_, rest) = slash_name_of(bytes.len(), bytes)?;
            after_gap(rest)
        }
        _ => Ok(bytes),
    }
}

/// What is left after the brace that opens the rules.
#[tactic(auto, unfolding(crate::specs::ReadHeader::brace_at))]
fn after_brace(bytes: &[u8]) -> Result<&[u8], Failure>
    ensures { Gives (λ x. x.now) result (brace_at bytes.now) }
{
    match bytes {
        [b'{', inside @ ..] => Ok(inside),
        [b'(', ..] => Err(fault_here(FaultKind::LeftOut(1), bytes)),
        _ if bytes.starts_with(b"flags=") => Err(fault_here(FaultKind::LeftOut(5), bytes)),
        _ if bytes.starts_with(b"xattrs=") => Err(fault_here(FaultKind::LeftOut(6), bytes)),
        _ => Err(fault_here(FaultKind::Syntax, bytes)),
    }
}

/// The name of a header that began with the word `profile`, and what is left after the header, where `rest` is left after
/// the word.
#[tactic(auto, unfolding(crate::specs::ReadHeader::named_header_at))]
fn named_header_of(rest: &[u8]) -> Result<(&[u8], &[u8]), Failure>
    ensures { (bytes : List ℕ) → rest.now ≡ after_word bytes
        → Gives (λ x. (x.0.now, x.1.now)) result (named_header_at bytes) }
{
    let rest = after_gap(rest)?;
    let (name, rest) = profile_name_of(rest)?;
    let rest = after_gap(rest)?;
    let rest = after_attachment(rest)?;
    let rest = after_brace(rest)?;
    Ok((name, rest))
}

/// The same without that word.
#[tactic(auto, unfolding(crate::specs::ReadHeader::slash_header_at))]
fn slash_header_of(bytes: &[u8]) -> Result<(&[u8], &[u8]), Failure>
    ensures { Gives (λ x. (x.0.now, x.1.now)) result (slash_header_at bytes.now) }
{
    let (name, rest) = slash_name_of(LONGEST_PROFILE_NAME, bytes)?;
    let rest = after_gap(rest)?;
    let rest = after_brace(rest)?;
    Ok((name, rest))
}

/// The name in a text's header, and what is left after the opening brace.
#[tactic(auto, unfolding(crate::specs::ReadHeader::header_at))]
pub(crate) fn header_of(bytes: &[u8]) -> Result<(&[u8], &[u8]), Failure>
    ensures { Gives (λ x. (x.0.now, x.1.now)) result (header_at bytes.now) }
{
    if let Some((word, rest)) = word_of(bytes) {
        return if word == b"profile".as_slice() {
            named_header_of(rest)
        } else {
            Err(word_left_out(bytes, word, rest))
        };
    }
    match bytes {
        [b'/' | b'"', ..] => slash_header_of(bytes),
        [b'@', ..] => Err(fault_here(FaultKind::LeftOut(1), bytes)),
        _ => Err(fault_here(FaultKind::Syntax, bytes)),
    }
}
