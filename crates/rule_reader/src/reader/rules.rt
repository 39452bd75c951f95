//! Rules.
ghost use Rattle.std.specs.Prelude.{◌≡◌, ◌≤◌, ℕ, List, length, map, drop, option_map, IfOk, Some, None, if◌then◌else◌};
ghost use Rattle.std.specs.List.{list_all};
ghost use Rattle.rule_profile.specs.Profile.{rule_value};
ghost use Rattle.rule_reader.specs.inner.Gives.{Gives};
ghost use Rattle.rule_profile.specs.Limits.{most_rules};
ghost use Rattle.rule_reader.specs.ReadText.{is_mode, perms_at, perms_behind, first_word_at, qualifier_at, start_at, comma_at};
ghost use Rattle.rule_reader.specs.ReadText.{body_at, rule_at, rule_begins, rules_at};
ghost use Rattle.rule_profile.specs.RuleSpans.{rule_span};
ghost use Rattle.rule_reader.specs.Spans.{span_between, spans_at};
ghost use Rattle.rule_reader.specs.TextBytes.{begins, is_close_brace};
ghost use Rattle.rule_globs.specs.Tokens.{tokens_of};

use super::local_fault::{Failure, FaultKind, fault_here, fault_with_left};
use super::path::path_of;
use super::words::{after_blank, after_gap, word_left_out, word_of};
use names::{Perms, RuleKind};
use rule_globs::RulePath;
use rule_profile::{MOST_RULES, Rule, Span};
use std::alloc::Global;

/// A letter of the access modes that file rules have, including those that are not supported.
fn is_mode(byte: u8) -> bool
    ensures { result ≡ is_mode byte }
{
    b"rwlkmaxipcuPCU".contains(&byte)
}

fn has_only_modes(word: &[u8]) -> bool
    ensures { result ≡ list_all is_mode word.now }
{
    word.iter().all(|byte| is_mode(*byte))
}

/// The permissions after a path, and what is left after them.
#[tactic(auto, unfolding(crate::specs::ReadText::perms_at))]
fn perms_of(bytes: &[u8]) -> Result<(Perms, &[u8]), Failure>
    ensures { Gives (λ x. (x.0, x.1.now)) result (perms_at bytes.now) }
{
    let Some((word, rest)) = word_of(bytes) else {
        return Err(match bytes {
            [b',', ..] => fault_here(FaultKind::EmptyPermissions, bytes),
            [b'-', b'>', ..] => fault_here(FaultKind::LeftOut(2), bytes),
            _ => fault_here(FaultKind::Syntax, bytes),
        });
    };
    match Perms::from_letters(word) {
        Some(perms) if perms.conflict() => {
            Err(fault_with_left(FaultKind::Conflict, bytes.len(), rest))
        }
        Some(perms) => Ok((perms, rest)),
        None if has_only_modes(word) => Err(word_left_out(bytes, word, rest)),
        None => Err(fault_with_left(FaultKind::Permission, bytes.len(), rest)),
    }
}

/// The same with the gap before them, directly after a path.
#[tactic(auto, unfolding(crate::specs::ReadText::perms_behind))]
fn perms_behind(bytes: &[u8]) -> Result<(Perms, &[u8]), Failure>
    ensures { Gives (λ x. (x.0, x.1.now)) result (perms_behind bytes.now) }
{
    match bytes {
        [b',', behind @ ..] => Err(fault_with_left(
            FaultKind::EmptyPermissions,
            bytes.len(),
            behind,
        )),
        _ => perms_of(after_gap(bytes)?),
    }
}

/// What the first word of a rule says that it does, if it is a qualifier, and what is left after it. The word `all` is a rule of its
/// own, which isn't supported.
#[tactic(auto, unfolding(crate::specs::ReadText::first_word_at))]
fn first_word(bytes: &[u8]) -> Result<Option<(RuleKind, &[u8])>, Failure>
    ensures { Gives (λ o. option_map {U = RuleKind × List ℕ} (λ x. (x.0, x.1.now)) o) result (first_word_at bytes.now) }
{
    match word_of(bytes) {
        Some((word, rest)) if word == b"allow".as_slice() => Ok(Some((RuleKind::Allow, rest))),
        Some((word, rest)) if word == b"deny".as_slice() => Ok(Some((RuleKind::Deny, rest))),
        Some((word, rest)) if word == b"all".as_slice() => Err(word_left_out(bytes, word, rest)),
        _ => Ok(None),
    }
}

/// What a rule does, and what is left after its qualifier and the gap after that. A rule without qualifier allows.
#[tactic(auto, unfolding(crate::specs::ReadText::qualifier_at))]
fn qualifier_of(bytes: &[u8]) -> Result<(RuleKind, &[u8]), Failure>
    ensures { Gives (λ x. (x.0, x.1.now)) result (qualifier_at bytes.now) }
{
    match first_word(bytes)? {
        Some((kind, rest)) => Ok((kind, after_gap(rest)?)),
        None => Ok((RuleKind::Allow, bytes)),
    }
}

/// What follows the qualifier: permissions, and what is left after them; none for a path.
#[tactic(auto, unfolding(crate::specs::ReadText::start_at))]
fn start_of(bytes: &[u8]) -> Result<Option<(Perms, &[u8])>, Failure>
    ensures { Gives (λ o. option_map (λ x. (x.0, x.1.now)) o) result (start_at bytes.now) }
{
    if let Some((word, rest)) = word_of(bytes) {
        return match Perms::from_letters(word) {
            Some(perms) => Ok(Some((perms, rest))),
            None => Err(word_left_out(bytes, word, rest)),
        };
    }
    match bytes {
        [b'/' | b'"', ..] => Ok(None),
        [b'@' | b'^' | b'$', ..] => Err(fault_here(FaultKind::LeftOut(1), bytes)),
        _ => Err(fault_here(FaultKind::Syntax, bytes)),
    }
}

/// What is left after the comma that ends a rule.
#[tactic(auto, unfolding(crate::specs::ReadText::comma_at))]
fn after_comma(bytes: &[u8]) -> Result<&[u8], Failure>
    ensures { Gives (λ x. x.now) result (comma_at bytes.now) }
{
    let comma = after_blank(bytes)?;
    match comma {
        [b',', rest @ ..] => Ok(rest),
        [b'-', b'>', ..] => Err(fault_here(FaultKind::LeftOut(2), comma)),
        _ => Err(fault_here(FaultKind::Syntax, comma)),
    }
}

/// A rule's permissions and path, in either order, and what is left after them.
#[tactic(auto, unfolding(crate::specs::ReadText::body_at))]
fn body_of(alloc: Global, bytes: &[u8]) -> Result<(Perms, RulePath, &[u8]), Failure>
    ensures { Gives (λ x. ((x.0, x.1), x.2.now)) result (body_at bytes.now) }
{
    match start_of(bytes)? {
        Some((perms, rest)) if perms.conflict() => {
            Err(fault_with_left(FaultKind::Conflict, bytes.len(), rest))
        }
        Some((perms, rest)) => {
            let (path, rest) = path_of(alloc, after_gap(rest)?)?;
            Ok((perms, path, rest))
        }
        None => {
            let (path, rest) = path_of(alloc, bytes)?;
            let (perms, rest) = perms_behind(rest)?;
            Ok((perms, path, rest))
        }
    }
}

/// A rule of a text of `len` bytes, of which these are left, and what is left after it.
#[tactic(auto, unfolding(crate::specs::ReadText::rule_at))]
fn rule_of(alloc: Global, len: usize, bytes: &[u8]) -> Result<(Rule, &[u8]), Failure>
    ensures gives { Gives (λ x. (rule_value x.0, x.1.now)) result (rule_at bytes.now) }
    ensures span { IfOk result (λ x. rule_span x.0 ≡ span_between len bytes.now x.1.now) }
{
    let (kind, rest) = qualifier_of(bytes)?;
    let (perms, path, rest) = body_of(alloc, rest)?;
    let rest = after_comma(rest)?;
    let span = Span {
        start: len.saturating_sub(bytes.len()),
        end: len.saturating_sub(rest.len()),
    };
    Ok((Rule::new(kind, perms, path).with_span(span), rest))
}

/// Checks that a rule begins here. Anything else is a fault.
#[tactic(auto, unfolding(crate::specs::ReadText::rule_begins))]
fn rule_begins(bytes: &[u8]) -> Result<(), Failure>
    ensures { Gives (λ _. tt) result (rule_begins bytes.now) }
{
    if first_word(bytes)?.is_none() {
        start_of(bytes)?;
    }
    Ok(())
}

/// What is left after a closing brace, if there is one at the front.
fn after_closing(bytes: &[u8]) -> Option<&[u8]>
    ensures { option_map (λ x. x.now) result ≡ (if begins is_close_brace bytes.now then Some (drop 1 bytes.now) else None) }
{
    match bytes {
        [b'}', rest @ ..] => Some(rest),
        _ => None,
    }
}

/// The rules up to the closing brace, in a text of `len` bytes, and what is left after it.
pub(crate) fn rules_of(
    alloc: Global,
    len: usize,
    bytes: &[u8],
) -> Result<(Vec<Rule>, &[u8]), Failure>
    ensures gives { Gives (λ x. (map rule_value x.0.items, x.1.now))
        result (rules_at most_rules bytes.now) }
    ensures few { IfOk result (λ x. length x.0.items ≤ most_rules) }
    ensures spans { IfOk result (λ x. map rule_span x.0.items ≡ spans_at len most_rules bytes.now) }
{
    let mut rules = Vec::new(alloc);
    let mut rest = bytes;
    loop {
        if let Some(more) = after_closing(rest) {
            return Ok((rules, more));
        }
        if rules.len() == MOST_RULES {
            rule_begins(rest)?;
            return Err(fault_here(FaultKind::TooManyRules, rest));
        }
        let (rule, more) = rule_of(alloc, len, rest)?;
        rules.push(rule)?;
        rest = after_blank(more)?;
    }
}
