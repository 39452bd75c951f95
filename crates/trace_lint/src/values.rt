//! What is found, as JSON values.
ghost use Rattle.std.specs.Prelude.{◌≡◌, codes, false, length, string_bytes, IfOk};
ghost use Rattle.answer_json.specs.Values.{number_or_null};
ghost use Rattle.rule_profile.specs.Profile.{profile_value};
ghost use Rattle.rule_profile.specs.RuleSpans.{profile_spans};
ghost use Rattle.serde_json.specs.Data.{member, no_members, object, string};
ghost use Rattle.serde_json.specs.View.{view};
ghost use Rattle.serde_json.specs.Written.{has_float};
ghost use Rattle.trace_lint.specs.Values.{finding_object, finding_word, letter_value, number_of, rules_array};
ghost use Rattle.trace_lint.specs.inner.Found.{AreNumbers, IsNumber, finding_value};

use crate::findings::{Finding, Idle};
use crate::texts::Linted;
use answer_json::rule_object;
use names::{NoMemory, Permission, RuleKind};
use serde_json::{Value, json};
use std::alloc::{AllocError, Global};

/// What is found about a part of a rule:
/// `{"also_idle":7,"finding":"decides nothing","permission":"w","rule":RULE,"stand_ins":[RULE]}`, with `null` for the permission
/// where it is found about all of the rule, and for `also_idle` where each stand-in decides something of the part.
pub(crate) fn finding_object(
    alloc: Global,
    linted: &Linted<'_>,
    finding: Finding<'_>,
) -> Result<Value, NoMemory>
    requires rule { IsNumber (length (profile_value linted.now.profile.now).rules) finding.part.rule }
    requires stand_ins { AreNumbers (length (profile_value linted.now.profile.now).rules) finding.stand_ins.now }
    ensures value { IfOk result (λ value. view value ≡ finding_object linted.now.text.now
        (profile_value linted.now.profile.now).rules (profile_spans linted.now.profile.now) (finding_value finding.entry)) }
    ensures integers { IfOk result (λ value. has_float (view value) ≡ false) }
{
    let number = finding.part.rule;
    let also_idle = number_of(finding.idle);
    let word = finding_word(linted.kind(number), finding.stand_ins);
    let letter = letter_value(alloc, finding.part.letter)?;
    let rule = rule_object(alloc, linted.text, linted.profile, number)?;
    let stand_ins = rules_array(alloc, linted, finding.stand_ins)?;
    match found(alloc, also_idle, word, letter, rule, stand_ins) {
        Ok(value) => Ok(value),
        Err(_) => Err(NoMemory),
    }
}

// What is found about a part of a rule of this kind.
fn finding_word(kind: RuleKind, stand_ins: &[u16]) -> &'static str
    ensures { result.now ≡ finding_word kind stand_ins.now }
{
    match kind {
        RuleKind::Deny if stand_ins.is_empty() => "denies nothing that is allowed",
        _ => "decides nothing",
    }
}

// The number of a stand-in, if there is one.
fn number_of(idle: Option<Idle>) -> Option<u16>
    ensures { result ≡ number_of idle }
{
    match idle {
        Some(idle) => Some(idle.rule),
        None => None,
    }
}

// The letter, or null for all of a rule.
fn letter_value(alloc: Global, letter: Option<Permission>) -> Result<Value, NoMemory>
    ensures { IfOk result (λ value. view value ≡ letter_value letter) }
{
    let Some(letter) = letter else {
        return Ok(Value::Null);
    };
    match format!(in alloc; "{letter}") {
        Ok(letter) => Ok(Value::String(letter)),
        Err(_) => Err(NoMemory),
    }
}

// Rules, as an array.
fn rules_array(alloc: Global, linted: &Linted<'_>, numbers: &[u16]) -> Result<Value, NoMemory>
    requires { AreNumbers (length (profile_value linted.now.profile.now).rules) numbers.now }
    ensures { IfOk result (λ value. view value ≡ rules_array linted.now.text.now (profile_value linted.now.profile.now).rules
        (profile_spans linted.now.profile.now) numbers.now) }
{
    let mut rules = Vec::new(alloc);
    for number in numbers {
        let rule = rule_object(alloc, linted.text, linted.profile, *number)?;
        let Ok(()) = rules.push(rule) else {
            return Err(NoMemory);
        };
    }
    Ok(Value::Array(rules))
}

// The object of what is found.
fn found(
    alloc: Global,
    also_idle: Option<u16>,
    word: &str,
    letter: Value,
    rule: Value,
    stand_ins: Value,
) -> Result<Value, AllocError>
    ensures { IfOk result (λ value. view value ≡ object (member (codes "also_idle") (number_or_null also_idle)
        (member (codes "finding") (string word.now) (member (codes "permission") (view letter)
        (member (codes "rule") (view rule) (member (codes "stand_ins") (view stand_ins) no_members)))))) }
{
    json!(in alloc; {
        "also_idle": also_idle,
        "finding": word,
        "permission": letter,
        "rule": rule,
        "stand_ins": stand_ins
    })
}
