//! Blanks and words.
ghost use Rattle.std.specs.Prelude.{◌≡◌, ◌<◌, length, [], IfSome};
ghost use Rattle.rule_reader.specs.ReadSteps.{goes_on};
ghost use Rattle.rule_reader.specs.inner.Gives.{Gives};
ghost use Rattle.rule_reader.specs.ReadWords.{blank, gap, literal, leading, word, after_word};
ghost use Rattle.rule_reader.specs.TextBytes.{is_word_byte};

use super::bytes::{is_include, is_white, is_word_byte};
use super::local_fault::{Failure, FaultKind, fault_here, fault_with_left};

/// What is left after any white and comments.
pub(crate) fn after_blank(bytes: &[u8]) -> Result<&[u8], Failure>
    ensures { Gives (λ x. x.now) result (blank bytes.now) }
{
    let mut rest = bytes;
    let mut comment = false;
    while let [byte, more @ ..] = rest {
        if comment {
            if *byte == 0 {
                return Err(fault_here(FaultKind::Syntax, rest));
            }
            comment = *byte != b'\n';
        } else if *byte == b'#' {
            if is_include(rest) {
                return Err(fault_here(FaultKind::LeftOut(8), rest));
            }
            comment = true;
        } else if !is_white(*byte) {
            break;
        }
        rest = more;
    }
    Ok(rest)
}

/// The same for a blank of at least one byte.
#[tactic(auto, unfolding(crate::specs::ReadWords::gap))]
pub(crate) fn after_gap(bytes: &[u8]) -> Result<&[u8], Failure>
    ensures { Gives (λ x. x.now) result (gap bytes.now) }
{
    match bytes {
        [byte, ..] if is_white(*byte) || *byte == b'#' => after_blank(bytes),
        _ => Err(fault_here(FaultKind::Syntax, bytes)),
    }
}

/// What is left after these bytes. The fault is at the first that differs.
pub(crate) fn after_literal<'a>(word: &[u8], bytes: &'a [u8]) -> Result<&'a [u8], Failure>
    ensures { Gives (λ x. x.now) result (literal word.now bytes.now) }
{
    match word {
        [] => Ok(bytes),
        [wanted, word @ ..] => match bytes {
            [byte, rest @ ..] if *byte == *wanted => after_literal(word, rest),
            _ => Err(fault_here(FaultKind::Syntax, bytes)),
        },
    }
}

/// How many bytes at the front are a word's.
fn word_length(bytes: &[u8]) -> usize
    ensures { result ≡ length (leading is_word_byte bytes.now) }
{
    let mut length = 0;
    while length < bytes.len() && is_word_byte(bytes[length]) {
        length += 1;
    }
    length
}

/// The word at the front, and what is left after it; none if there is no word.
#[tactic(auto, using(crate::specs::laws::ReadRuns::leading_cut))]
pub(crate) fn word_of(bytes: &[u8]) -> Option<(&[u8], &[u8])>
    ensures none { result ≡ None → word bytes.now ≡ [] }
    ensures some { IfSome result (λ x. (x.0.now ≡ word bytes.now) × (x.1.now ≡ after_word bytes.now) × (0 < length x.0.now)) }
{
    match bytes {
        [byte, ..] if byte.is_ascii_alphabetic() => Some(bytes.split_at(word_length(bytes))),
        _ => None,
    }
}

/// The fault of a word that is not supported, where `bytes` begins with it and `rest` is left after it.
pub(crate) fn word_left_out(bytes: &[u8], word: &[u8], rest: &[u8]) -> Failure
    ensures { result ≡ Failure.At (record {
      kind = FaultKind.LeftOut (length word.now);
      left = length bytes.now;
      settled =
          goes_on rest.now;
    }) }
{
    fault_with_left(FaultKind::LeftOut(word.len()), bytes.len(), rest)
}
