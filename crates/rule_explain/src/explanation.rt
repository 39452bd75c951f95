//! What is said about a name, and why.
ghost use Rattle.std.specs.Prelude.{◌≡◌, ◌≤◌, ◌++◌, ◌∷◌, IfOk, codes, decimal, length, map, string_bytes};
ghost use Rattle.names.specs.Permissions.{letter};
ghost use Rattle.rule_explain.specs.Explanations.{explanation, reason_lines, reason_text, rule_place, rule_told};
ghost use Rattle.rule_explain.specs.Reasons.{reason};
ghost use Rattle.rule_explain.specs.inner.Numbers.{TellsRuleOf};
ghost use Rattle.rule_profile.specs.Profile.{rule_value, profile_value};
ghost use Rattle.rule_profile.specs.RuleSpans.{profile_spans, rule_span};
ghost use Rattle.names.specs.VerdictText.{verdict_text};

use crate::hits::firsts_of;
use crate::place::place_at;
use crate::reason::{Reason, reason_of};
use names::{NoMemory, Permission, Perms, Verdict};
use rule_judge::judge_slow;
use rule_profile::{Profile, Rule};
use rule_writer::write_rule;
use std::alloc::Global;

/// Says what a profile makes of a name and of the permissions that are asked for it, and why: a line with the verdict, and then a
/// line for each permission ([`reason_lines`]).
#[tactic(auto, unfolding(crate::specs::Explanations::explanation))]
pub fn explain(
    alloc: Global,
    text: &[u8],
    profile: &Profile,
    name: &[u8],
    ask: Perms,
) -> Result<Vec<u8>, NoMemory>
    ensures { IfOk result (λ lines. lines.items
        ≡ explanation text.now (profile_value profile.now).rules (profile_spans profile.now) name.now ask) }
{
    let mut lines = verdict_line(alloc, judge_slow(profile, name, ask))?;
    put(&mut lines, &reason_lines(alloc, text, profile, name, ask)?)?;
    Ok(lines)
}

/// For each permission that is asked a line with the least rule that denies it, or otherwise the least that allows it, by its
/// number, its line in the text that the profile was read from, and its text.
pub fn reason_lines(
    alloc: Global,
    text: &[u8],
    profile: &Profile,
    name: &[u8],
    ask: Perms,
) -> Result<Vec<u8>, NoMemory>
    ensures { IfOk result (λ lines. lines.items
        ≡ reason_lines text.now (profile_value profile.now).rules (profile_spans profile.now) name.now ask) }
{
    let mut lines = Vec::new(alloc);
    let firsts = firsts_of(profile, name, ask);
    for permission in Permission::ALL {
        if ask.contains(permission) {
            let reason = firsts.reason(permission);
            put_line(&mut lines, alloc, text, profile, permission, reason)?;
        }
    }
    Ok(lines)
}

/// Why a permission is allowed to a name, or not, as a line of an explanation says it, without the permission's letter.
pub fn reason_text(
    alloc: Global,
    text: &[u8],
    profile: &Profile,
    name: &[u8],
    permission: Permission,
) -> Result<Vec<u8>, NoMemory>
    ensures { IfOk result (λ told. told.items ≡ reason_text text.now (profile_value profile.now).rules (profile_spans profile.now)
        (reason (profile_value profile.now).rules name.now permission)) }
{
    let mut told = Vec::new(alloc);
    let reason = reason_of(profile, name, permission);
    put_reason(&mut told, alloc, text, profile, reason)?;
    Ok(told)
}

/// Where the rule with this number is: `rule 3, line 7`.
pub fn rule_place(
    alloc: Global,
    text: &[u8],
    profile: &Profile,
    number: u16,
) -> Result<String, NoMemory>
    requires some { 1 ≤ number }
    requires most { number ≤ length (profile_value profile.now).rules }
    ensures { IfOk result (λ told. string_bytes told ≡ rule_place text.now (profile_spans profile.now) number) }
{
    let rule = &profile.rules()[usize::from(number) - 1];
    let line = place_at(text, rule.span().start).line;
    match format!(in alloc; "rule {number}, line {line}") {
        Ok(told) => Ok(told),
        Err(_) => Err(NoMemory),
    }
}

fn verdict_line(alloc: Global, verdict: Verdict) -> Result<Vec<u8>, NoMemory>
    ensures { IfOk result (λ line. line.items ≡ verdict_text verdict ++ codes "\n") }
{
    match format!(in alloc; "{verdict}\n") {
        Ok(line) => Ok(line.into_bytes()),
        Err(_) => Err(NoMemory),
    }
}

/// Adds the line of a permission, for this reason.
fn put_line(
    lines: &mut Vec<u8>,
    alloc: Global,
    text: &[u8],
    profile: &Profile,
    permission: Permission,
    reason: Reason,
) -> Result<(), NoMemory>
    requires { TellsRuleOf reason (length (profile_value profile.now).rules) }
    ensures { IfOk result (λ _. lines.new.items ≡ lines.old.items
        ++ letter permission ∷ (codes ": "
        ++ (reason_text text.now (profile_value profile.now).rules (profile_spans profile.now) reason ++ codes "\n"))) }
{
    put(lines, &[permission.letter()])?;
    put(lines, b": ")?;
    put_reason(lines, alloc, text, profile, reason)?;
    put(lines, b"\n")
}

/// Adds a reason.
fn put_reason(
    lines: &mut Vec<u8>,
    alloc: Global,
    text: &[u8],
    profile: &Profile,
    reason: Reason,
) -> Result<(), NoMemory>
    requires { TellsRuleOf reason (length (profile_value profile.now).rules) }
    ensures { IfOk result (λ _. lines.new.items ≡ lines.old.items
        ++ reason_text text.now (profile_value profile.now).rules (profile_spans profile.now) reason) }
{
    match reason {
        Reason::Allowed { rule } => {
            put(lines, b"allowed by ")?;
            put_rule(lines, alloc, text, profile.rules(), rule)
        }
        Reason::Denied { rule } => {
            put(lines, b"denied by ")?;
            put_rule(lines, alloc, text, profile.rules(), rule)
        }
        Reason::NoRule => put(lines, b"no rule"),
    }
}

/// Adds a rule by its number, its line, and its text.
fn put_rule(
    lines: &mut Vec<u8>,
    alloc: Global,
    text: &[u8],
    rules: &[Rule],
    number: u16,
) -> Result<(), NoMemory>
    requires some { 1 ≤ number }
    requires most { number ≤ length rules.now }
    ensures { IfOk result (λ _. lines.new.items ≡ lines.old.items
        ++ rule_told text.now (map rule_value rules.now) (map rule_span rules.now) number) }
{
    let rule = &rules[usize::from(number) - 1];
    let place = place_at(text, rule.span().start);
    let front = rule_front(alloc, number, place.line)?;
    put(lines, front.as_bytes())?;
    put(lines, &write_rule(alloc, rule)?)
}

/// What comes before a rule's text: its number, and its line.
fn rule_front(alloc: Global, number: u16, line: usize) -> Result<String, NoMemory>
    ensures { IfOk result (λ front. string_bytes front
        ≡ codes "rule " ++ (decimal number ++ (codes ", line " ++ (decimal line ++ codes ": ")))) }
{
    match format!(in alloc; "rule {number}, line {line}: ") {
        Ok(front) => Ok(front),
        Err(_) => Err(NoMemory),
    }
}

/// Adds these bytes.
fn put(lines: &mut Vec<u8>, bytes: &[u8]) -> Result<(), NoMemory>
    ensures { IfOk result (λ _. lines.new.items ≡ lines.old.items ++ bytes.now) }
{
    match lines.extend_from_slice(bytes) {
        Ok(()) => Ok(()),
        Err(_) => Err(NoMemory),
    }
}
