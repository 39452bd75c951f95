//! Denials as JSON values.
ghost use Rattle.std.specs.Prelude.{◌≡◌, ◌+◌, IfOk, codes, false, length, map};
ghost use Rattle.answer_json.specs.Values.{name_value, number_value};
ghost use Rattle.audit_log.specs.Denials.{denial_value};
ghost use Rattle.serde_json.specs.Data.{array, member, no_members, object, string};
ghost use Rattle.serde_json.specs.View.{items_of, view};
ghost use Rattle.serde_json.specs.Written.{has_float};
ghost use Rattle.trace_audit.specs.Values.{added_value, answer_word, deciding, denial_object, file_value, info_value, missing_value};
ghost use Rattle.trace_audit.specs.Values.{subject_word};
ghost use Rattle.trace_audit.specs.inner.AnswerValues.{answer_value};
ghost use Rattle.trace_audit.specs.inner.GroupValues.{group_value};
ghost use Rattle.trace_audit.specs.inner.Objects.{IsOfAnswer, IsOfGroup, object_of};

use crate::answer::Answer;
use crate::groups::Group;
use answer_json::name_value;
use audit_log::Denial;
use names::NoMemory;
use serde_json::{Value, json};
use std::alloc::{AllocError, Global};

fn answer_word(answer: &Answer<'_>) -> &'static str
    ensures { result.now ≡ answer_word (answer_value answer.now) }
{
    match answer {
        Answer::NoProfile => "no such profile",
        Answer::NotImported(_) => "not imported",
        Answer::NotJudged => "not judged",
        Answer::AllowedBy(_) => "allowed",
        Answer::DeniedBy { .. } => "denied",
        Answer::NoRule { .. } => "no rule",
    }
}

fn subject_word(by_owner: bool) -> &'static str
    ensures { result.now ≡ subject_word by_owner }
{
    if by_owner { "owner" } else { "others" }
}

/// The rule that would allow what is missing, or null.
fn added_value(alloc: Global, answer: &Answer<'_>) -> Result<Value, NoMemory>
    ensures { IfOk result (λ value. view value ≡ added_value (answer_value answer.now)) }
{
    match answer {
        Answer::NoRule {
            add: Some(rule),
            ..
        } => name_value(alloc, rule),
        _ => Ok(Value::Null),
    }
}

/// The letters for which there is no rule, or null.
fn missing_value(alloc: Global, answer: &Answer<'_>) -> Result<Value, NoMemory>
    ensures { IfOk result (λ value. view value ≡ missing_value (answer_value answer.now)) }
{
    let Answer::NoRule { missing, .. } = answer else {
        return Ok(Value::Null);
    };
    match format!(in alloc; "{missing}") {
        Ok(letters) => Ok(Value::String(letters)),
        Err(_) => Err(NoMemory),
    }
}

/// The file that can't be imported, or null.
fn file_value(alloc: Global, answer: &Answer<'_>) -> Result<Value, NoMemory>
    ensures { IfOk result (λ value. view value ≡ file_value (answer_value answer.now)) }
{
    match answer {
        Answer::NotImported(refusal) => name_value(alloc, refusal.file.as_bytes()),
        _ => Ok(Value::Null),
    }
}

/// Why the kernel refused it, or null.
fn info_value(alloc: Global, denial: &Denial) -> Result<Value, NoMemory>
    ensures { IfOk result (λ value. view value ≡ info_value (denial_value denial.now).info) }
{
    match &denial.info {
        Some(info) => name_value(alloc, info),
        None => Ok(Value::Null),
    }
}

/// Numbers of rules, as an array.
fn numbers_value(alloc: Global, numbers: &[u16]) -> Result<Value, NoMemory>
    ensures { IfOk result (λ value. view value ≡ array (items_of (map number_value numbers.now))) }
{
    let mut values = Vec::new(alloc);
    for number in numbers {
        if values.push(Value::from(*number)).is_err() {
            return Err(NoMemory);
        }
    }
    Ok(Value::Array(values))
}

/// The rules that decide, as an array.
fn rules_value(alloc: Global, answer: &Answer<'_>) -> Result<Value, NoMemory>
    ensures { IfOk result (λ value. view value ≡ array (items_of (map number_value (deciding (answer_value answer.now))))) }
{
    match answer {
        Answer::AllowedBy(rules) => numbers_value(alloc, rules),
        Answer::DeniedBy { rule, .. } => numbers_value(alloc, &[*rule]),
        _ => numbers_value(alloc, &[]),
    }
}

/// What an object has of an answer.
#[derive(Drop)]
struct OfAnswer {
    add: Value,
    file: Value,
    missing: Value,
    rules: Value,
    verdict: &'static str,
}

fn of_answer(alloc: Global, answer: &Answer<'_>) -> Result<OfAnswer, NoMemory>
    ensures { IfOk result (λ parts. IsOfAnswer (answer_value answer.now) parts) }
{
    Ok(OfAnswer {
        add: added_value(alloc, answer)?,
        file: file_value(alloc, answer)?,
        missing: missing_value(alloc, answer)?,
        rules: rules_value(alloc, answer)?,
        verdict: answer_word(answer),
    })
}

/// What an object has of a group.
#[derive(Drop)]
struct OfGroup {
    info: Value,
    line: usize,
    mask: Value,
    name: Value,
    profile: Value,
    subject: &'static str,
    times: usize,
}

fn of_group(alloc: Global, group: &Group) -> Result<OfGroup, NoMemory>
    ensures { IfOk result (λ parts. IsOfGroup (group_value group.now) parts) }
{
    Ok(OfGroup {
        info: info_value(alloc, &group.denial)?,
        line: group.line,
        mask: name_value(alloc, &group.denial.mask)?,
        name: name_value(alloc, &group.denial.name)?,
        profile: name_value(alloc, &group.denial.profile)?,
        subject: subject_word(group.denial.by_owner),
        times: group.again.len() + 1,
    })
}

/// The object of these parts.
fn object_of(alloc: Global, group: OfGroup, answer: OfAnswer) -> Result<Value, AllocError>
    ensures { IfOk result (λ value. view value ≡ object_of group answer) }
{
    let OfAnswer {
        add,
        file,
        missing,
        rules,
        verdict,
    } = answer;
    let OfGroup {
        info,
        line,
        mask,
        name,
        profile,
        subject,
        times,
    } = group;
    json!(in alloc; {
        "add": add,
        "file": file,
        "info": info,
        "line": line,
        "mask": mask,
        "missing": missing,
        "name": name,
        "profile": profile,
        "rules": rules,
        "subject": subject,
        "times": times,
        "verdict": verdict
    })
}

/// A denial and what is reported about it:
/// `{"add":"\"/etc/shadow\" r,","file":null,"info":null,"line":101,"mask":"r","missing":"r","name":"/etc/shadow",
/// "profile":"traceroute","rules":[],"subject":"others","times":1,"verdict":"no rule"}`.
pub(crate) fn denial_object(
    alloc: Global,
    group: &Group,
    answer: &Answer<'_>,
) -> Result<Value, NoMemory>
    ensures value { IfOk result (λ value. view value ≡ denial_object (group_value group.now) (answer_value answer.now)) }
    ensures integers { IfOk result (λ value. has_float (view value) ≡ false) }
{
    let of_answer = of_answer(alloc, answer)?;
    let of_group = of_group(alloc, group)?;
    match object_of(alloc, of_group, of_answer) {
        Ok(value) => Ok(value),
        Err(_) => Err(NoMemory),
    }
}
