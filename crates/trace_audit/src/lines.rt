//! Denials as lines of text.
ghost use Rattle.std.specs.Prelude.{◌≡◌, ◌++◌, ◌+◌, IfOk, codes, decimal, length, option_map, string_bytes};
ghost use Rattle.names.specs.Permissions.{letters};
ghost use Rattle.audit_log.specs.Denials.{denial_value};
ghost use Rattle.trace_audit.specs.Lines.{added_text, allowed_text, answer_text, changed_text, denied_text, front_text, info_text};
ghost use Rattle.trace_audit.specs.Lines.{line_text, missing_text, numbers_text, refusal_text, shown, times_text, x_text};
ghost use Rattle.trace_audit.specs.inner.AnswerValues.{answer_value};
ghost use Rattle.trace_audit.specs.inner.FoundValues.{refusal_value};
ghost use Rattle.trace_audit.specs.inner.GroupValues.{group_value};

use crate::answer::Answer;
use crate::asked::has_x;
use crate::groups::Group;
use crate::lookup::Refusal;
use apparmor_rules::shown_byte;
use audit_log::Denial;
use names::{NoMemory, Perms};
use std::alloc::Global;

/// Adds these bytes.
pub(crate) fn put(line: &mut Vec<u8>, bytes: &[u8]) -> Result<(), NoMemory>
    ensures { IfOk result (λ _. line.new.items ≡ line.old.items ++ bytes.now) }
{
    match line.extend_from_slice(bytes) {
        Ok(()) => Ok(()),
        Err(_) => Err(NoMemory),
    }
}

/// Adds a name with its control bytes as `?`.
fn put_shown(line: &mut Vec<u8>, name: &[u8]) -> Result<(), NoMemory>
    ensures { IfOk result (λ _. line.new.items ≡ line.old.items ++ shown name.now) }
{
    for byte in name {
        put(line, &[shown_byte(*byte)])?;
    }
    Ok(())
}

/// Adds a number.
fn put_number(line: &mut Vec<u8>, alloc: Global, number: usize) -> Result<(), NoMemory>
    ensures { IfOk result (λ _. line.new.items ≡ line.old.items ++ decimal number) }
{
    match format!(in alloc; "{number}") {
        Ok(text) => put(line, text.as_bytes()),
        Err(_) => Err(NoMemory),
    }
}

/// Adds numbers, with a comma and a space between each two.
fn put_numbers(line: &mut Vec<u8>, alloc: Global, numbers: &[u16]) -> Result<(), NoMemory>
    ensures { IfOk result (λ _. line.new.items ≡ line.old.items ++ numbers_text numbers.now) }
{
    for (i, number) in numbers.iter().enumerate() {
        if i > 0 {
            put(line, b", ")?;
        }
        put_number(line, alloc, usize::from(*number))?;
    }
    Ok(())
}

/// Adds how often a denial came, if more than once.
fn put_times(line: &mut Vec<u8>, alloc: Global, again: &[usize]) -> Result<(), NoMemory>
    ensures { IfOk result (λ _. line.new.items ≡ line.old.items ++ times_text again.now) }
{
    if again.is_empty() {
        return Ok(());
    }
    put(line, b" (")?;
    put_number(line, alloc, again.len() + 1)?;
    put(line, b" times)")
}

/// Adds what a line begins with.
fn put_front(line: &mut Vec<u8>, alloc: Global, group: &Group) -> Result<(), NoMemory>
    ensures { IfOk result (λ _. line.new.items ≡ line.old.items ++ front_text (group_value group.now)) }
{
    put_number(line, alloc, group.line)?;
    put(line, b" ")?;
    put_shown(line, &group.denial.profile)?;
    put(line, b" ")?;
    put_shown(line, &group.denial.name)?;
    put(line, b" ")?;
    put(line, &group.denial.mask)?;
    put_times(line, alloc, &group.again)
}

/// What is said of `x` after the rest, if it is among what was denied.
fn x_text(x: bool) -> &'static [u8]
    ensures { result.now ≡ x_text x }
{
    if x { b"; x is not judged" } else { b"" }
}

/// Adds the file that can't be imported.
fn put_refusal(line: &mut Vec<u8>, alloc: Global, refusal: Refusal<'_>) -> Result<(), NoMemory>
    ensures { IfOk result (λ _. line.new.items ≡ line.old.items ++ refusal_text (refusal_value refusal.entry)) }
{
    put(line, b"not imported: import ")?;
    put_number(line, alloc, usize::from(refusal.number))?;
    put(line, b" in ")?;
    put_shown(line, refusal.file.as_bytes())
}

/// What is said of rules that allow it now, if the kernel had no other reason.
fn changed_text(denial: &Denial) -> &'static [u8]
    ensures { result.now ≡ changed_text (denial_value denial.now).info }
{
    match denial.info {
        None => b": the profile has changed",
        Some(_) => b"",
    }
}

/// Adds the rules that allow what was denied.
fn put_allowed(
    line: &mut Vec<u8>,
    alloc: Global,
    denial: &Denial,
    rules: &[u16],
) -> Result<(), NoMemory>
    ensures { IfOk result (λ _. line.new.items ≡ line.old.items ++ allowed_text (denial_value denial.now) rules.now) }
{
    put(line, b"allowed by rule ")?;
    put_numbers(line, alloc, rules)?;
    put(line, changed_text(denial))?;
    put(line, x_text(has_x(&denial.mask)))
}

/// Adds the rule that denies it.
fn put_denied(
    line: &mut Vec<u8>,
    alloc: Global,
    x: bool,
    rule: u16,
    text: &[u8],
) -> Result<(), NoMemory>
    ensures { IfOk result (λ _. line.new.items ≡ line.old.items ++ denied_text x rule text.now) }
{
    put(line, b"denied by rule ")?;
    put_number(line, alloc, usize::from(rule))?;
    put(line, b": ")?;
    put(line, text)?;
    put(line, x_text(x))
}

/// Adds the rule that would allow what is missing.
fn put_added(line: &mut Vec<u8>, add: Option<&[u8]>) -> Result<(), NoMemory>
    ensures { IfOk result (λ _. line.new.items ≡ line.old.items ++ added_text (option_map (λ rule. rule.now) add.entry)) }
{
    match add {
        Some(rule) => {
            put(line, b"; add: ")?;
            put(line, rule)
        }
        None => put(line, b"; no rule is proposed for this name"),
    }
}

/// Adds the letters of permissions.
fn put_letters(line: &mut Vec<u8>, alloc: Global, perms: Perms) -> Result<(), NoMemory>
    ensures { IfOk result (λ _. line.new.items ≡ line.old.items ++ letters perms) }
{
    match format!(in alloc; "{perms}") {
        Ok(letters) => put(line, letters.as_bytes()),
        Err(_) => Err(NoMemory),
    }
}

/// Adds what is missing.
fn put_missing(
    line: &mut Vec<u8>,
    alloc: Global,
    x: bool,
    missing: Perms,
    add: Option<&[u8]>,
) -> Result<(), NoMemory>
    ensures { IfOk result (λ _. line.new.items ≡ line.old.items ++ missing_text x missing (option_map (λ rule. rule.now) add.entry)) }
{
    put(line, b"no rule for ")?;
    put_letters(line, alloc, missing)?;
    put(line, x_text(x))?;
    put_added(line, add)
}

/// Adds what is reported about a denial.
fn put_answer(
    line: &mut Vec<u8>,
    alloc: Global,
    denial: &Denial,
    answer: &Answer<'_>,
) -> Result<(), NoMemory>
    ensures { IfOk result (λ _. line.new.items ≡ line.old.items ++ answer_text (denial_value denial.now) (answer_value answer.now)) }
{
    let x = has_x(&denial.mask);
    match answer {
        Answer::NoProfile => put(line, b"no such profile"),
        Answer::NotImported(refusal) => put_refusal(line, alloc, *refusal),
        Answer::NotJudged => put(line, b"x is not judged"),
        Answer::AllowedBy(rules) => put_allowed(line, alloc, denial, rules),
        Answer::DeniedBy { rule, text } => put_denied(line, alloc, x, *rule, text),
        Answer::NoRule {
            missing,
            add: Some(rule),
        } => put_missing(line, alloc, x, *missing, Some(rule)),
        Answer::NoRule { missing, add: None } => put_missing(line, alloc, x, *missing, None),
    }
}

/// Adds why the kernel refused it, if not by the rules alone.
fn put_info(line: &mut Vec<u8>, denial: &Denial) -> Result<(), NoMemory>
    ensures { IfOk result (λ _. line.new.items ≡ line.old.items ++ info_text (denial_value denial.now).info) }
{
    match &denial.info {
        Some(info) => {
            put(line, b"; the kernel's reason: ")?;
            put_shown(line, info)
        }
        None => Ok(()),
    }
}

/// Adds the line about a denial.
pub(crate) fn put_line(
    line: &mut Vec<u8>,
    alloc: Global,
    group: &Group,
    answer: &Answer<'_>,
) -> Result<(), NoMemory>
    ensures { IfOk result (λ _. line.new.items ≡ line.old.items ++ line_text (group_value group.now) (answer_value answer.now)) }
{
    put_front(line, alloc, group)?;
    put(line, b": ")?;
    put_answer(line, alloc, &group.denial, answer)?;
    put_info(line, &group.denial)?;
    put(line, b"\n")
}
