//! Verdicts as JSON values.
ghost use Rattle.std.specs.Prelude.{◌≡◌, codes, false, IfOk};
ghost use Rattle.answer_json.specs.Values.{denying_rule, explanation_object, missing_letters, number_or_null, verdict_object};
ghost use Rattle.answer_json.specs.Values.{verdict_word};
ghost use Rattle.rule_profile.specs.Profile.{profile_value};
ghost use Rattle.rule_profile.specs.RuleSpans.{profile_spans};
ghost use Rattle.serde_json.specs.Data.{member, no_members, object, string};
ghost use Rattle.serde_json.specs.View.{view};
ghost use Rattle.serde_json.specs.Written.{has_float};

use crate::reasons::reasons_array;
use names::{NoMemory, Perms, Verdict};
use rule_judge::judge_slow;
use rule_profile::Profile;
use serde_json::{Value, json};
use std::alloc::{AllocError, Global};

/// A verdict: `{"missing":null,"rule":3,"verdict":"denied"}`, or with the letters for which there is no rule.
#[tactic(auto, using(crate::specs::laws::NoFloats::no_float_in_verdict))]
pub fn verdict_object(alloc: Global, verdict: Verdict) -> Result<Value, NoMemory>
    ensures value { IfOk result (λ value. view value ≡ verdict_object verdict) }
    ensures integers { IfOk result (λ value. has_float (view value) ≡ false) }
{
    let missing = missing_letters(alloc, verdict)?;
    let rule = denying_rule(verdict);
    let word = verdict_word(verdict);
    match judged(alloc, missing, rule, word) {
        Ok(value) => Ok(value),
        Err(_) => Err(NoMemory),
    }
}

/// What a profile makes of a name and of the permissions that are asked for it, and why: the verdict, with the member `reasons`
/// ([`reasons_array`]).
#[tactic(auto, using(crate::specs::laws::NoFloats::no_float_in_explanation))]
pub fn explanation_object(
    alloc: Global,
    text: &[u8],
    profile: &Profile,
    name: &[u8],
    ask: Perms,
) -> Result<Value, NoMemory>
    ensures value { IfOk result (λ value. view value
        ≡ explanation_object text.now (profile_value profile.now).rules (profile_spans profile.now) name.now ask) }
    ensures integers { IfOk result (λ value. has_float (view value) ≡ false) }
{
    let verdict = judge_slow(profile, name, ask);
    let missing = missing_letters(alloc, verdict)?;
    let reasons = reasons_array(alloc, text, profile, name, ask)?;
    let rule = denying_rule(verdict);
    let word = verdict_word(verdict);
    match explained(alloc, missing, reasons, rule, word) {
        Ok(value) => Ok(value),
        Err(_) => Err(NoMemory),
    }
}

/// The permissions for which there is no rule, by their letters, or `null`.
pub fn missing_letters(alloc: Global, verdict: Verdict) -> Result<Value, NoMemory>
    ensures { IfOk result (λ value. view value ≡ missing_letters verdict) }
{
    let Verdict::NoRule { missing } = verdict else {
        return Ok(Value::Null);
    };
    match format!(in alloc; "{missing}") {
        Ok(letters) => Ok(Value::String(letters)),
        Err(_) => Err(NoMemory),
    }
}

/// The number of the rule that denies, if there is one.
pub fn denying_rule(verdict: Verdict) -> Option<u16>
    ensures { result ≡ denying_rule verdict }
{
    match verdict {
        Verdict::Denied { rule } => Some(rule),
        Verdict::Allowed | Verdict::NoRule { .. } => None,
    }
}

/// The word of a verdict: `allowed`, `denied`, or `no rule`.
pub fn verdict_word(verdict: Verdict) -> &'static str
    ensures { result.now ≡ verdict_word verdict }
{
    match verdict {
        Verdict::Allowed => "allowed",
        Verdict::Denied { .. } => "denied",
        Verdict::NoRule { .. } => "no rule",
    }
}

/// The object of a verdict.
fn judged(alloc: Global, missing: Value, rule: Option<u16>, word: &str) -> Result<Value, AllocError>
    ensures { IfOk result (λ value. view value ≡ object (member (codes "missing") (view missing)
        (member (codes "rule") (number_or_null rule) (member (codes "verdict") (string word.now) no_members)))) }
{
    json!(in alloc; {"missing": missing, "rule": rule, "verdict": word})
}

/// The object of a verdict and the reasons for it.
fn explained(
    alloc: Global,
    missing: Value,
    reasons: Value,
    rule: Option<u16>,
    word: &str,
) -> Result<Value, AllocError>
    ensures { IfOk result (λ value. view value ≡ object (member (codes "missing") (view missing)
        (member (codes "reasons") (view reasons) (member (codes "rule") (number_or_null rule)
        (member (codes "verdict") (string word.now) no_members))))) }
{
    json!(in alloc; {"missing": missing, "reasons": reasons, "rule": rule, "verdict": word})
}
