//! What the rules of an imported profile say about a name, and where they come from.
ghost use Rattle.std.specs.Prelude.{◌≡◌, ◌++◌, IfOk, codes, decimal, option_map, slice_get, string_bytes};
ghost use Rattle.import_origins.specs.Included.{file_before, marks_of};
ghost use Rattle.import_origins.specs.OriginObjects.{origin_explanation};
ghost use Rattle.import_origins.specs.Origins.{explained, file_told, reason_line, reason_told, rule_told, start_of_rule};
ghost use Rattle.names.specs.VerdictText.{verdict_text};
ghost use Rattle.rule_explain.specs.Explanations.{rule_place, text_of_rule};
ghost use Rattle.rule_explain.specs.Reasons.{reason};
ghost use Rattle.rule_profile.specs.Profile.{profile_value, rule_value};
ghost use Rattle.rule_profile.specs.RuleSpans.{profile_spans};

use crate::included::IncludedFiles;
use crate::objects::origin_object;
use crate::put::{push_shown, put};
use answer_json::json_line;
use names::{NoMemory, Permission, Perms, Verdict};
use rule_explain::{Reason, place_at, reason_of};
use rule_judge::judge_slow;
use rule_profile::Profile;
use rule_writer::write_rule;
use std::alloc::Global;
use trace_report::Format;

/// What a profile whose spans are in this flattened text makes of a name and of the permissions that are asked for it, and why:
/// the verdict, and for each permission the rule that decides, the line of the text that it comes from, and the file that the text
/// names last before that; as lines, or as one line of JSON ([`origin_object`](crate::origin_object)).
pub fn origin_explanation(
    alloc: Global,
    format: Format,
    text: &[u8],
    profile: &Profile,
    name: &[u8],
    ask: Perms,
) -> Result<Vec<u8>, NoMemory>
    ensures { IfOk result (λ lines. lines.items
        ≡ origin_explanation format text.now (profile_value profile.now).rules (profile_spans profile.now) name.now ask) }
{
    match format {
        Format::Text => explained(alloc, text, profile, name, ask),
        Format::Json => {
            let value = origin_object(alloc, text, profile, name, ask)?;
            json_line(alloc, &value)
        }
    }
}

/// The explanation as lines.
fn explained(
    alloc: Global,
    text: &[u8],
    profile: &Profile,
    name: &[u8],
    ask: Perms,
) -> Result<Vec<u8>, NoMemory>
    ensures { IfOk result (λ lines. lines.items
        ≡ explained text.now (profile_value profile.now).rules (profile_spans profile.now) name.now ask) }
{
    let files = IncludedFiles::of(alloc, text)?;
    let mut lines = verdict_line(alloc, judge_slow(profile, name, ask))?;
    for permission in Permission::ALL {
        put_line(
            &mut lines, alloc, text, &files, profile, name, ask, permission,
        )?;
    }
    Ok(lines)
}

fn verdict_line(alloc: Global, verdict: Verdict) -> Result<Vec<u8>, NoMemory>
    ensures { IfOk result (λ line. line.items ≡ verdict_text verdict ++ codes "\n") }
{
    match format!(in alloc; "{verdict}\n") {
        Ok(line) => Ok(line.into_bytes()),
        Err(_) => Err(NoMemory),
    }
}

/// Adds the line of a permission, if it is asked.
fn put_line(
    lines: &mut Vec<u8>,
    alloc: Global,
    text: &[u8],
    files: &IncludedFiles<'_>,
    profile: &Profile,
    name: &[u8],
    ask: Perms,
    permission: Permission,
) -> Result<(), NoMemory>
    requires { files.now ≡ marks_of text.now }
    ensures { IfOk result (λ _. lines.new.items ≡ lines.old.items
        ++ reason_line text.now (profile_value profile.now).rules (profile_spans profile.now) name.now ask permission) }
{
    if !ask.contains(permission) {
        return Ok(());
    }
    put(lines, &[permission.letter()])?;
    put(lines, b": ")?;
    put_reason(
        lines,
        alloc,
        text,
        files,
        profile,
        reason_of(profile, name, permission),
    )?;
    put(lines, b"\n")
}

/// Adds a reason.
fn put_reason(
    lines: &mut Vec<u8>,
    alloc: Global,
    text: &[u8],
    files: &IncludedFiles<'_>,
    profile: &Profile,
    reason: Reason,
) -> Result<(), NoMemory>
    requires { files.now ≡ marks_of text.now }
    ensures { IfOk result (λ _. lines.new.items ≡ lines.old.items
        ++ reason_told text.now (profile_value profile.now).rules (profile_spans profile.now) reason) }
{
    match reason {
        Reason::Allowed { rule } => {
            put(lines, b"allowed by ")?;
            put_rule(lines, alloc, text, files, profile, rule)
        }
        Reason::Denied { rule } => {
            put(lines, b"denied by ")?;
            put_rule(lines, alloc, text, files, profile, rule)
        }
        Reason::NoRule => put(lines, b"no rule"),
    }
}

/// How many bytes of the text come before the place of the rule with this number.
pub(crate) fn start_of_rule(profile: &Profile, number: u16) -> usize
    ensures { result ≡ start_of_rule (profile_spans profile.now) number }
{
    match profile.rules().get(usize::from(number).saturating_sub(1)) {
        Some(rule) => rule.span().start,
        None => 0,
    }
}

/// The text of the rule with this number.
pub(crate) fn text_of_rule(
    alloc: Global,
    profile: &Profile,
    number: u16,
) -> Result<Vec<u8>, NoMemory>
    ensures { IfOk result (λ text. text.items ≡ text_of_rule (profile_value profile.now).rules number) }
{
    match profile.rules().get(usize::from(number).saturating_sub(1)) {
        Some(rule) => write_rule(alloc, rule),
        None => Ok(Vec::new(alloc)),
    }
}

/// Adds a rule by its number, its line, the file, and its text.
fn put_rule(
    lines: &mut Vec<u8>,
    alloc: Global,
    text: &[u8],
    files: &IncludedFiles<'_>,
    profile: &Profile,
    number: u16,
) -> Result<(), NoMemory>
    requires { files.now ≡ marks_of text.now }
    ensures { IfOk result (λ _. lines.new.items ≡ lines.old.items
        ++ rule_told text.now (profile_value profile.now).rules (profile_spans profile.now) number) }
{
    let start = start_of_rule(profile, number);
    let place = rule_place(alloc, number, place_at(text, start).line)?;
    put(lines, place.as_bytes())?;
    put_file(lines, files.before(start))?;
    put(lines, b": ")?;
    put(lines, &text_of_rule(alloc, profile, number)?)
}

fn rule_place(alloc: Global, number: u16, line: usize) -> Result<String, NoMemory>
    ensures { IfOk result (λ place. string_bytes place
        ≡ codes "rule " ++ (decimal number ++ (codes ", line " ++ decimal line))) }
{
    match format!(in alloc; "rule {number}, line {line}") {
        Ok(place) => Ok(place),
        Err(_) => Err(NoMemory),
    }
}

/// Adds the file, if there is one.
fn put_file(lines: &mut Vec<u8>, file: Option<&[u8]>) -> Result<(), NoMemory>
    ensures { IfOk result (λ _. lines.new.items ≡ lines.old.items ++ file_told (option_map (λ file. file.now) file.entry)) }
{
    match file {
        Some(file) => {
            put(lines, b", in or after ")?;
            push_shown(lines, file)
        }
        None => Ok(()),
    }
}
