//! Rules, and the reasons for verdicts, as JSON values.
ghost use Rattle.std.specs.Prelude.{◌≡◌, ◌≤◌, codes, false, length, string_bytes, IfOk};
ghost use Rattle.answer_json.specs.Values.{number_value, object_of_reason, reason_object, reason_word, reasons_array, rule_object};
ghost use Rattle.answer_json.specs.Values.{rule_of_reason};
ghost use Rattle.answer_json.specs.inner.Numbers.{NamesRuleOf};
ghost use Rattle.rule_profile.specs.Profile.{profile_value};
ghost use Rattle.rule_profile.specs.RuleSpans.{profile_spans};
ghost use Rattle.serde_json.specs.Data.{member, no_members, object, string};
ghost use Rattle.serde_json.specs.View.{view};
ghost use Rattle.serde_json.specs.Written.{has_float};

use crate::name_values::name_value;
use names::{NoMemory, Permission, Perms};
use rule_explain::{Reason, place_at, reason_of};
use rule_profile::Profile;
use rule_writer::write_rule;
use serde_json::{Value, json};
use std::alloc::{AllocError, Global};

/// The rule with this number: `{"line":7,"number":3,"text":"\"/home/*/**\" rw,"}`, with its line in the text that the profile was
/// read from.
#[tactic(auto, using(crate::specs::laws::NoFloats::no_float_in_rule))]
pub fn rule_object(
    alloc: Global,
    text: &[u8],
    profile: &Profile,
    number: u16,
) -> Result<Value, NoMemory>
    requires some { 1 ≤ number }
    requires most { number ≤ length (profile_value profile.now).rules }
    ensures value { IfOk result (λ value. view value
        ≡ rule_object text.now (profile_value profile.now).rules (profile_spans profile.now) number) }
    ensures integers { IfOk result (λ value. has_float (view value) ≡ false) }
{
    let rule = &profile.rules()[usize::from(number) - 1];
    let line = place_at(text, rule.span().start).line;
    let written = name_value(alloc, &write_rule(alloc, rule)?)?;
    match numbered(alloc, line, number, written) {
        Ok(value) => Ok(value),
        Err(_) => Err(NoMemory),
    }
}

/// Why a profile allows a permission to a name, or doesn't: `{"permission":"w","rule":RULE,"verdict":"denied"}`, with `null` where
/// there is no rule ([`rule_object`]).
pub fn reason_object(
    alloc: Global,
    text: &[u8],
    profile: &Profile,
    name: &[u8],
    permission: Permission,
) -> Result<Value, NoMemory>
    ensures value { IfOk result (λ value. view value
        ≡ reason_object text.now (profile_value profile.now).rules (profile_spans profile.now) name.now permission) }
    ensures integers { IfOk result (λ value. has_float (view value) ≡ false) }
{
    let reason = reason_of(profile, name, permission);
    object_of_reason(alloc, text, profile, permission, reason)
}

/// The reasons for each permission that is asked, in the order of [`Permission::ALL`], as an array.
pub fn reasons_array(
    alloc: Global,
    text: &[u8],
    profile: &Profile,
    name: &[u8],
    ask: Perms,
) -> Result<Value, NoMemory>
    ensures value { IfOk result (λ value. view value
        ≡ reasons_array text.now (profile_value profile.now).rules (profile_spans profile.now) name.now ask) }
    ensures integers { IfOk result (λ value. has_float (view value) ≡ false) }
{
    let mut reasons = Vec::new(alloc);
    for permission in Permission::ALL {
        if ask.contains(permission) {
            let reason = reason_object(alloc, text, profile, name, permission)?;
            let Ok(()) = reasons.push(reason) else {
                return Err(NoMemory);
            };
        }
    }
    Ok(Value::Array(reasons))
}

/// A permission, and a reason.
fn object_of_reason(
    alloc: Global,
    text: &[u8],
    profile: &Profile,
    permission: Permission,
    reason: Reason,
) -> Result<Value, NoMemory>
    requires { NamesRuleOf reason (length (profile_value profile.now).rules) }
    ensures { IfOk result (λ value. view value
        ≡ object_of_reason text.now (profile_value profile.now).rules (profile_spans profile.now) permission reason) }
{
    let rule = rule_of_reason(alloc, text, profile, reason)?;
    let word = reason_word(reason);
    let Ok(letter) = format!(in alloc; "{permission}") else {
        return Err(NoMemory);
    };
    match reasoned(alloc, letter, rule, word) {
        Ok(value) => Ok(value),
        Err(_) => Err(NoMemory),
    }
}

/// The rule that a reason names.
fn rule_of_reason(
    alloc: Global,
    text: &[u8],
    profile: &Profile,
    reason: Reason,
) -> Result<Value, NoMemory>
    requires { NamesRuleOf reason (length (profile_value profile.now).rules) }
    ensures { IfOk result (λ value. view value
        ≡ rule_of_reason text.now (profile_value profile.now).rules (profile_spans profile.now) reason) }
{
    match reason {
        Reason::Allowed { rule } | Reason::Denied { rule } => rule_object(
            alloc, text, profile, rule,
        ),
        Reason::NoRule => Ok(Value::Null),
    }
}

/// The word of a reason: `allowed`, `denied`, or `no rule`.
pub fn reason_word(reason: Reason) -> &'static str
    ensures { result.now ≡ reason_word reason }
{
    match reason {
        Reason::Allowed { .. } => "allowed",
        Reason::Denied { .. } => "denied",
        Reason::NoRule => "no rule",
    }
}

/// The object of a rule.
fn numbered(alloc: Global, line: usize, number: u16, text: Value) -> Result<Value, AllocError>
    ensures { IfOk result (λ value. view value ≡ object (member (codes "line") (number_value line)
        (member (codes "number") (number_value number) (member (codes "text") (view text) no_members)))) }
{
    json!(in alloc; {"line": line, "number": number, "text": text})
}

/// The object of a reason.
fn reasoned(alloc: Global, letter: String, rule: Value, word: &str) -> Result<Value, AllocError>
    ensures { IfOk result (λ value. view value ≡ object (member (codes "permission") (string (string_bytes letter))
        (member (codes "rule") (view rule) (member (codes "verdict") (string word.now) no_members)))) }
{
    json!(in alloc; {"permission": letter, "rule": rule, "verdict": word})
}
