//! What the rules of an imported profile say about a name, and where they come from, as JSON values.
ghost use Rattle.std.specs.Prelude.{◌≡◌, ◌++◌, codes, false, IfOk, map, option_map, string_bytes};
ghost use Rattle.answer_json.specs.Values.{denying_rule, number_or_null, number_value, reason_word};
ghost use Rattle.import_origins.specs.Included.{marks_of};
ghost use Rattle.import_origins.specs.OriginObjects.{file_value, object_of_reason, origin_object, origin_rule_object, reason_objects};
ghost use Rattle.import_origins.specs.OriginObjects.{reasons_array, rule_of_reason};
ghost use Rattle.rule_profile.specs.Profile.{profile_value};
ghost use Rattle.rule_profile.specs.RuleSpans.{profile_spans};
ghost use Rattle.serde_json.specs.Data.{member, no_members, object, string};
ghost use Rattle.serde_json.specs.View.{view};
ghost use Rattle.serde_json.specs.Written.{has_float};

use crate::explanation::{start_of_rule, text_of_rule};
use crate::included::IncludedFiles;
use answer_json::{denying_rule, missing_letters, name_value, reason_word, verdict_word};
use names::{NoMemory, Permission, Perms};
use rule_explain::{Reason, place_at, reason_of};
use rule_judge::judge_slow;
use rule_profile::Profile;
use serde_json::{Value, json};
use std::alloc::{AllocError, Global};

/// What a profile whose spans are in this flattened text makes of a name and of the permissions that are asked for it, and why:
/// `{"missing":null,"reasons":[{"permission":"r","rule":RULE,"verdict":"allowed"}],"rule":null,"verdict":"allowed"}`, where a RULE
/// is `{"file":"<abstractions/base>","line":612,"number":177,"text":"\"/etc/passwd\" r,"}`, or `null`.
#[tactic(auto, using(crate::proofs::NoFloats::no_float_in_origins))]
pub fn origin_object(
    alloc: Global,
    text: &[u8],
    profile: &Profile,
    name: &[u8],
    ask: Perms,
) -> Result<Value, NoMemory>
    ensures value { IfOk result (λ value. view value
        ≡ origin_object text.now (profile_value profile.now).rules (profile_spans profile.now) name.now ask) }
    ensures integers { IfOk result (λ value. has_float (view value) ≡ false) }
{
    let verdict = judge_slow(profile, name, ask);
    let missing = missing_letters(alloc, verdict)?;
    let reasons = reasons_array(alloc, text, profile, name, ask)?;
    let rule = denying_rule(verdict);
    match explained(alloc, missing, reasons, rule, verdict_word(verdict)) {
        Ok(value) => Ok(value),
        Err(_) => Err(NoMemory),
    }
}

/// The reasons for each permission that is asked.
fn reasons_array(
    alloc: Global,
    text: &[u8],
    profile: &Profile,
    name: &[u8],
    ask: Perms,
) -> Result<Value, NoMemory>
    ensures { IfOk result (λ value. view value
        ≡ reasons_array text.now (profile_value profile.now).rules (profile_spans profile.now) name.now ask) }
{
    let files = IncludedFiles::of(alloc, text)?;
    let mut reasons = Vec::new(alloc);
    for permission in Permission::ALL {
        push_reason(
            &mut reasons,
            alloc,
            text,
            &files,
            profile,
            name,
            ask,
            permission,
        )?;
    }
    Ok(Value::Array(reasons))
}

/// Adds the reason of a permission, if it is asked.
fn push_reason(
    reasons: &mut Vec<Value>,
    alloc: Global,
    text: &[u8],
    files: &IncludedFiles<'_>,
    profile: &Profile,
    name: &[u8],
    ask: Perms,
    permission: Permission,
) -> Result<(), NoMemory>
    requires { files.now ≡ marks_of text.now }
    ensures { IfOk result (λ _. map view reasons.new.items ≡ map view reasons.old.items
        ++ reason_objects text.now (profile_value profile.now).rules (profile_spans profile.now) name.now ask permission) }
{
    if !ask.contains(permission) {
        return Ok(());
    }
    let reason = reason_of(profile, name, permission);
    let object = object_of_reason(alloc, text, files, profile, permission, reason)?;
    match reasons.push(object) {
        Ok(()) => Ok(()),
        Err(_) => Err(NoMemory),
    }
}

/// A permission, and a reason.
fn object_of_reason(
    alloc: Global,
    text: &[u8],
    files: &IncludedFiles<'_>,
    profile: &Profile,
    permission: Permission,
    reason: Reason,
) -> Result<Value, NoMemory>
    requires { files.now ≡ marks_of text.now }
    ensures { IfOk result (λ value. view value
        ≡ object_of_reason text.now (profile_value profile.now).rules (profile_spans profile.now) permission reason) }
{
    let rule = rule_of_reason(alloc, text, files, profile, reason)?;
    let Ok(letter) = format!(in alloc; "{permission}") else {
        return Err(NoMemory);
    };
    match reasoned(alloc, letter, rule, reason_word(reason)) {
        Ok(value) => Ok(value),
        Err(_) => Err(NoMemory),
    }
}

/// The rule that a reason names.
fn rule_of_reason(
    alloc: Global,
    text: &[u8],
    files: &IncludedFiles<'_>,
    profile: &Profile,
    reason: Reason,
) -> Result<Value, NoMemory>
    requires { files.now ≡ marks_of text.now }
    ensures { IfOk result (λ value. view value
        ≡ rule_of_reason text.now (profile_value profile.now).rules (profile_spans profile.now) reason) }
{
    match reason {
        Reason::Allowed { rule } | Reason::Denied { rule } => {
            origin_rule_object(alloc, text, files, profile, rule)
        }
        Reason::NoRule => Ok(Value::Null),
    }
}

/// The rule with this number, its line and the file.
fn origin_rule_object(
    alloc: Global,
    text: &[u8],
    files: &IncludedFiles<'_>,
    profile: &Profile,
    number: u16,
) -> Result<Value, NoMemory>
    requires { files.now ≡ marks_of text.now }
    ensures { IfOk result (λ value. view value
        ≡ origin_rule_object text.now (profile_value profile.now).rules (profile_spans profile.now) number) }
{
    let start = start_of_rule(profile, number);
    let file = file_value(alloc, files.before(start))?;
    let line = place_at(text, start).line;
    let written = name_value(alloc, &text_of_rule(alloc, profile, number)?)?;
    match numbered(alloc, file, line, number, written) {
        Ok(value) => Ok(value),
        Err(_) => Err(NoMemory),
    }
}

/// A file, or `null`.
fn file_value(alloc: Global, file: Option<&[u8]>) -> Result<Value, NoMemory>
    ensures { IfOk result (λ value. view value ≡ file_value (option_map (λ file. file.now) file.entry)) }
{
    match file {
        Some(file) => name_value(alloc, file),
        None => Ok(Value::Null),
    }
}

/// The object of a verdict and the reasons for it.
fn explained(
    alloc: Global,
    missing: Value,
    reasons: Value,
    rule: Option<u16>,
    word: &str,
) -> Result<Value, AllocError>
    ensures { IfOk result (λ value. view value ≡ object (member (codes "missing") (view missing)
        (member (codes "reasons") (view reasons) (member (codes "rule") (number_or_null rule)
        (member (codes "verdict") (string word.now) no_members))))) }
{
    json!(in alloc; {"missing": missing, "reasons": reasons, "rule": rule, "verdict": word})
}

/// The object of a rule.
fn numbered(
    alloc: Global,
    file: Value,
    line: usize,
    number: u16,
    text: Value,
) -> Result<Value, AllocError>
    ensures { IfOk result (λ value. view value ≡ object (member (codes "file") (view file)
        (member (codes "line") (number_value line) (member (codes "number") (number_value number)
        (member (codes "text") (view text) no_members))))) }
{
    json!(in alloc; {"file": file, "line": line, "number": number, "text": text})
}

/// The object of a reason.
fn reasoned(alloc: Global, letter: String, rule: Value, word: &str) -> Result<Value, AllocError>
    ensures { IfOk result (λ value. view value ≡ object (member (codes "permission") (string (string_bytes letter))
        (member (codes "rule") (view rule) (member (codes "verdict") (string word.now) no_members)))) }
{
    json!(in alloc; {"permission": letter, "rule": rule, "verdict": word})
}
