//! Answers to questions as lines of JSON.
ghost use Rattle.std.specs.Prelude.{◌≡◌, codes, false, IfOk};
ghost use Rattle.answer_json.specs.Lines.{json_line};
ghost use Rattle.answer_json.specs.Values.{name_value, reason_object};
ghost use Rattle.names.specs.Permissions.{letter};
ghost use Rattle.rule_profile.specs.Profile.{profile_value};
ghost use Rattle.rule_profile.specs.RuleSpans.{profile_spans};
ghost use Rattle.serde_json.specs.Data.{member, no_members, object, string};
ghost use Rattle.serde_json.specs.View.{view};
ghost use Rattle.serde_json.specs.Written.{has_float};
ghost use Rattle.trace_questions.specs.Objects.{answer_object, found_object, found_word, named_difference, nothing_object, nothing_word};
ghost use Rattle.trace_questions.specs.Objects.{side_word, word_object};
ghost use Rattle.trace_questions.specs.inner.Objects.{lettered_difference};

use crate::changes::Versions;
use answer_json::{json_line, name_value, reason_object, reasons_array};
use names::{NoMemory, Permission, Perms};
use question_answers::{Quantifier, Side};
use rule_profile::Profile;
use serde_json::{Value, json};
use std::alloc::{AllocError, Global};

// The object of an answer.
fn answer_object(
    alloc: Global,
    word: &str,
    name: Value,
    reasons: Value,
) -> Result<Value, AllocError>
    ensures { IfOk result (λ value. view value ≡ answer_object word.now (view name) (view reasons)) }
{
    json!(in alloc; {"answer": word, "name": name, "reasons": reasons})
}

// The line of an answer.
fn answer_line(alloc: Global, word: &str, name: Value, reasons: Value) -> Result<Vec<u8>, NoMemory>
    requires name { has_float (view name) ≡ false }
    requires reasons { has_float (view reasons) ≡ false }
    ensures { IfOk result (λ line. line.items ≡ json_line (answer_object word.now (view name) (view reasons))) }
{
    match answer_object(alloc, word, name, reasons) {
        Ok(value) => json_line(alloc, &value),
        Err(_) => Err(NoMemory),
    }
}

/// The line of a name that is found: `{"answer":"any","name":NAME,"reasons":[REASON,..]}`.
pub(crate) fn found_line(
    alloc: Global,
    quantifier: Quantifier,
    text: &[u8],
    profile: &Profile,
    ask: Perms,
    name: &[u8],
) -> Result<Vec<u8>, NoMemory>
    ensures { IfOk result (λ line. line.items ≡ json_line (found_object quantifier text.now (profile_value profile.now).rules
        (profile_spans profile.now) ask name.now)) }
{
    let reasons = reasons_array(alloc, text, profile, name, ask)?;
    let name = name_value(alloc, name)?;
    answer_line(alloc, found_word(quantifier), name, reasons)
}

/// The line of an answer without a name: `{"answer":"none","name":null,"reasons":[]}`.
pub(crate) fn nothing_line(alloc: Global, word: &str) -> Result<Vec<u8>, NoMemory>
    ensures { IfOk result (λ line. line.items ≡ json_line (nothing_object word.now)) }
{
    answer_line(alloc, word, Value::Null, Value::Array(Vec::new(alloc)))
}

/// What is said of a name that is found.
pub(crate) fn found_word(quantifier: Quantifier) -> &'static str
    ensures { result.now ≡ found_word quantifier }
{
    match quantifier {
        Quantifier::Any(_) => "any",
        Quantifier::All => "not",
    }
}

/// What is said where no name is found.
pub(crate) fn nothing_word(quantifier: Quantifier) -> &'static str
    ensures { result.now ≡ nothing_word quantifier }
{
    match quantifier {
        Quantifier::Any(_) => "none",
        Quantifier::All => "all",
    }
}

// Which profile allows it.
fn side_word(side: Side) -> &'static str
    ensures { result.now ≡ side_word side }
{
    match side {
        Side::New => "new",
        Side::Old => "old",
    }
}

// The object of a difference.
fn lettered_difference(
    alloc: Global,
    side: &str,
    name: Value,
    new: Value,
    old: Value,
    letter: String,
) -> Result<Value, AllocError>
    ensures { IfOk result (λ value. view value ≡ lettered_difference side.now (view name) (view new) (view old) letter) }
{
    json!(in alloc; {"allowed_by": side, "name": name, "new": new, "old": old, "permission": letter})
}

/// The line of a name that one profile alone allows something to.
pub(crate) fn difference_line(
    alloc: Global,
    versions: &Versions<'_>,
    permission: Permission,
    side: Side,
    name: &[u8],
) -> Result<Vec<u8>, NoMemory>
    ensures { IfOk result (λ line. line.items ≡ json_line (named_difference side permission name.now
        (reason_object versions.now.after.now (profile_value versions.now.new.now).rules (profile_spans versions.now.new.now)
        name.now permission)
        (reason_object versions.now.before.now (profile_value versions.now.old.now).rules (profile_spans versions.now.old.now)
        name.now permission))) }
{
    let new = reason_object(alloc, versions.after, versions.new, name, permission)?;
    let old = reason_object(alloc, versions.before, versions.old, name, permission)?;
    let name = name_value(alloc, name)?;
    let Ok(letter) = format!(in alloc; "{permission}") else {
        return Err(NoMemory);
    };
    match lettered_difference(alloc, side_word(side), name, new, old, letter) {
        Ok(value) => json_line(alloc, &value),
        Err(_) => Err(NoMemory),
    }
}

/// The line of an answer of one word: `{"answer":"same"}`.
pub(crate) fn word_line(alloc: Global, word: &str) -> Result<Vec<u8>, NoMemory>
    ensures { IfOk result (λ line. line.items ≡ json_line (word_object word.now)) }
{
    match word_object(alloc, word) {
        Ok(value) => json_line(alloc, &value),
        Err(_) => Err(NoMemory),
    }
}

// The object of an answer of one word.
fn word_object(alloc: Global, word: &str) -> Result<Value, AllocError>
    ensures { IfOk result (λ value. view value ≡ word_object word.now) }
{
    json!(in alloc; {"answer": word})
}
