//! What is found, as lines: of text, or of JSON.
ghost use Rattle.std.specs.Prelude.{◌≡◌, ◌++◌, Some, IfOk, OnOk, flat_map, length, map};
ghost use Rattle.rule_profile.specs.Profile.{profile_value};
ghost use Rattle.rule_profile.specs.RuleSpans.{profile_spans};
ghost use Rattle.trace_lint.specs.Lines.{caveat, finding_line, idle_text, said, unaided, why, work};
ghost use Rattle.trace_lint.specs.LintOutput.{finding_in};
ghost use Rattle.trace_lint.specs.inner.Found.{AreNumbers, HaveNumbers, IsNumber, ListsHaveNumbers, all_found, finding_value};

use crate::findings::{Finding, Idle, Part};
use crate::parts::case_of;
use crate::texts::{Linted, put, put_letter};
use crate::values::finding_object;
use answer_json::json_line;
use names::{NoMemory, Perms, RuleKind};
use std::alloc::Global;
use trace_report::Format;

/// A line for each part that decides nothing, by its stand-ins and by what each rule decides.
pub(crate) fn lines(
    alloc: Global,
    format: Format,
    linted: &Linted<'_>,
    decided: &[Perms],
    parts: &[Part],
    lists: &[Vec<u16>],
) -> Result<Vec<u8>, NoMemory>
    requires each { length lists.now ≡ length parts.now }
    requires decided { length decided.now ≡ length (profile_value linted.now.profile.now).rules }
    requires parts { HaveNumbers (length (profile_value linted.now.profile.now).rules) parts.now }
    requires lists { ListsHaveNumbers (length (profile_value linted.now.profile.now).rules) lists.now }
    ensures { IfOk result (λ lines. lines.items
        ≡ flat_map (finding_in format linted.now.text.now (profile_value linted.now.profile.now).rules
        (profile_spans linted.now.profile.now)) (all_found (profile_value linted.now.profile.now).rules decided.now parts.now
        (map (λ list. list.items) lists.now))) }
{
    let mut lines = Vec::new(alloc);
    for index in 0..parts.len() {
        let part = parts[index];
        let case = case_of(linted.profile.rules(), part);
        let finding = Finding::of(part, case.perms, &lists[index], decided);
        put_finding(&mut lines, alloc, format, linted, finding)?;
    }
    Ok(lines)
}

// Appends what is found, as a line.
fn put_finding(
    line: &mut Vec<u8>,
    alloc: Global,
    format: Format,
    linted: &Linted<'_>,
    finding: Finding<'_>,
) -> Result<(), NoMemory>
    requires rule { IsNumber (length (profile_value linted.now.profile.now).rules) finding.part.rule }
    requires stand_ins { AreNumbers (length (profile_value linted.now.profile.now).rules) finding.stand_ins.now }
    ensures { OnOk result (line.new.items ≡ line.old.items ++ finding_in format linted.now.text.now
        (profile_value linted.now.profile.now).rules (profile_spans linted.now.profile.now) (finding_value finding.entry)) }
{
    match format {
        Format::Text => put_line(line, alloc, linted, finding),
        Format::Json => {
            let value = finding_object(alloc, linted, finding)?;
            put(line, &json_line(alloc, &value)?)
        }
    }
}

// Appends the line of what is found.
fn put_line(
    line: &mut Vec<u8>,
    alloc: Global,
    linted: &Linted<'_>,
    finding: Finding<'_>,
) -> Result<(), NoMemory>
    requires rule { IsNumber (length (profile_value linted.now.profile.now).rules) finding.part.rule }
    requires stand_ins { AreNumbers (length (profile_value linted.now.profile.now).rules) finding.stand_ins.now }
    ensures { OnOk result (line.new.items ≡ line.old.items ++ finding_line linted.now.text.now
        (profile_value linted.now.profile.now).rules (profile_spans linted.now.profile.now) (finding_value finding.entry)) }
{
    let number = finding.part.rule;
    let kind = linted.kind(number);
    linted.put_place(line, alloc, number)?;
    put(line, b": ")?;
    put_letter(line, finding.part.letter)?;
    put(line, said(kind, finding.stand_ins))?;
    linted.put_rule(line, alloc, number)?;
    put_why(line, alloc, linted, kind, finding)?;
    put(line, b"\n")
}

// What is said of a part of a rule of this kind.
fn said(kind: RuleKind, stand_ins: &[u16]) -> &'static [u8]
    ensures { result.now ≡ said kind stand_ins.now }
{
    match kind {
        RuleKind::Deny if stand_ins.is_empty() => b"denies nothing that is allowed: ",
        _ => b"decides nothing: ",
    }
}

// Appends why a part decides nothing, in parentheses.
fn put_why(
    line: &mut Vec<u8>,
    alloc: Global,
    linted: &Linted<'_>,
    kind: RuleKind,
    finding: Finding<'_>,
) -> Result<(), NoMemory>
    requires { AreNumbers (length (profile_value linted.now.profile.now).rules) finding.stand_ins.now }
    ensures { OnOk result (line.new.items ≡ line.old.items ++ why linted.now.text.now (profile_spans linted.now.profile.now) kind
        finding.entry.stand_ins.now finding.entry.idle) }
{
    if finding.stand_ins.is_empty() {
        return put(line, unaided(kind));
    }
    put(line, b" (")?;
    linted.put_place(line, alloc, finding.stand_ins[0])?;
    linted.put_others(line, alloc, &finding.stand_ins[1..])?;
    put(line, work(kind))?;
    put_idle(line, alloc, finding.idle)?;
    put(line, b")")
}

// Why a part of a rule of this kind decides nothing where there are no stand-ins. For a deny rule it was said.
fn unaided(kind: RuleKind) -> &'static [u8]
    ensures { result.now ≡ unaided kind }
{
    match kind {
        RuleKind::Allow => b" (a deny rule denies each of its names)",
        RuleKind::Deny => b"",
    }
}

// What the stand-ins for a rule of this kind do.
fn work(kind: RuleKind) -> &'static [u8]
    ensures { result.now ≡ work kind }
{
    match kind {
        RuleKind::Allow => b" allows each of its names, or a deny rule denies it",
        RuleKind::Deny => b" denies each of its names that is allowed",
    }
}

// Appends that a stand-in decides nothing of the part either, if there is one.
fn put_idle(line: &mut Vec<u8>, alloc: Global, idle: Option<Idle>) -> Result<(), NoMemory>
    ensures { OnOk result (line.new.items ≡ line.old.items ++ idle_text idle) }
{
    match idle {
        Some(idle) => put(line, &idle_text(alloc, idle)?),
        None => Ok(()),
    }
}

// That a stand-in decides nothing of the part either.
fn idle_text(alloc: Global, idle: Idle) -> Result<Vec<u8>, NoMemory>
    ensures { IfOk result (λ text. text.items ≡ idle_text (Some idle)) }
{
    let rule = idle.rule;
    let caveat = caveat(idle.wholly);
    match format!(in alloc; "; rule {rule}{caveat}") {
        Ok(text) => Ok(text.into_bytes()),
        Err(_) => Err(NoMemory),
    }
}

// What a stand-in doesn't decide either: anything, or what the part is about.
fn caveat(wholly: bool) -> &'static str
    ensures { result.now ≡ caveat wholly }
{
    if wholly {
        " decides nothing either: leave out one of them, not both"
    } else {
        " decides nothing of this either: leave it out of one of them, not both"
    }
}
