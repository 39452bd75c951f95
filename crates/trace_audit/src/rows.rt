//! A line for each denial.
ghost use Rattle.std.specs.Prelude.{◌≡◌, ◌++◌, IfOk, map};
ghost use Rattle.audit_log.specs.Denials.{denial_value};
ghost use Rattle.trace_audit.specs.Audit.{AreLines, line_in};
ghost use Rattle.trace_audit.specs.inner.AnswerValues.{answer_value};
ghost use Rattle.trace_audit.specs.inner.FoundValues.{found_value, text_value};
ghost use Rattle.trace_audit.specs.inner.GroupValues.{group_value};
ghost use Rattle.trace_audit.specs.inner.KnownProfiles.{AreFound, IsLineOf};
ghost use Rattle.trace_audit.specs.Answers.{answer_to};

use crate::answer::{Answer, answer_to};
use crate::groups::Group;
use crate::known::{ProfileKey, keep};
use crate::lines::{put, put_line};
use crate::lookup::{Found, ProfileText, find};
use crate::values::denial_object;
use answer_json::json_line;
use names::NoMemory;
use std::alloc::Global;
use std::collections::BTreeMap;
use trace_report::Format;

/// Adds the line of a denial and of what is reported about it, in this format.
fn put_row(
    lines: &mut Vec<u8>,
    alloc: Global,
    format: Format,
    group: &Group,
    answer: &Answer<'_>,
) -> Result<(), NoMemory>
    ensures { IfOk result (λ _. lines.new.items ≡ lines.old.items ++ line_in format (group_value group.now) (answer_value answer.now)) }
{
    match format {
        Format::Text => put_line(lines, alloc, group, answer),
        Format::Json => {
            let value = denial_object(alloc, group, answer)?;
            put(lines, &json_line(alloc, &value)?)
        }
    }
}

/// Adds the line of a denial, by what the name of its profile leads to.
fn put_found(
    lines: &mut Vec<u8>,
    alloc: Global,
    format: Format,
    group: &Group,
    found: &Found<'_>,
) -> Result<(), NoMemory>
    ensures { IfOk result (λ _. lines.new.items ≡ lines.old.items ++ line_in format (group_value group.now)
        (answer_to (found_value found.now) (denial_value group.now.denial))) }
{
    let answer = answer_to(alloc, found, &group.denial)?;
    put_row(lines, alloc, format, group, &answer)
}

/// Adds the line of a denial, whose profile's name is looked up unless that is known.
fn put_group<'a>(
    lines: &mut Vec<u8>,
    alloc: Global,
    format: Format,
    texts: &[ProfileText<'a>],
    known: &mut BTreeMap<ProfileKey, Found<'a>>,
    group: &Group,
) -> Result<(), NoMemory>
    requires { AreFound (map text_value texts.now) known.old }
    ensures known { IfOk result (λ _. AreFound (map text_value texts.now) known.new) }
    ensures line { IfOk result (λ _. IsLineOf format (map text_value texts.now) (group_value group.now) lines.old.items lines.new.items) }
{
    let key = ProfileKey::of(alloc, &group.denial)?;
    match known.get(&key) {
        Some(found) => put_found(lines, alloc, format, group, found),
        None => {
            let found = find(alloc, texts, &key.profile, key.by_owner)?;
            put_found(lines, alloc, format, group, &found)?;
            keep(known, key, found)
        }
    }
}

/// A line for each denial.
pub(crate) fn lines_of<'a>(
    alloc: Global,
    format: Format,
    texts: &[ProfileText<'a>],
    groups: &[Group],
) -> Result<Vec<u8>, NoMemory>
    ensures { IfOk result (λ lines. AreLines format (map text_value texts.now) (map group_value groups.now) lines.items) }
{
    let mut known = BTreeMap::new(alloc);
    let mut lines = Vec::new(alloc);
    for group in groups {
        put_group(&mut lines, alloc, format, texts, &mut known, group)?;
    }
    Ok(lines)
}
