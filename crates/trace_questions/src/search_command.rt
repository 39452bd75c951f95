//! `any PERMS PATTERN` and `all PERMS PATTERN`: whether some name, or each name, that a pattern matches is allowed what is asked.
ghost use Rattle.std.specs.Prelude.{◌≡◌, ◌++◌, [], ℕ, List, Some, IfOk, IsErr, OnOk};
ghost use Rattle.std.specs.List.{flat_map};
ghost use Rattle.std.specs.Io.KnownBytes.{Keeps};
ghost use Rattle.glob_automaton.specs.Automata.{most_sets};
ghost use Rattle.glob_automaton.specs.Sets.{AreMoreThan};
ghost use Rattle.rule_globs.specs.Tokens.{Token};
ghost use Rattle.rule_profile.specs.Profile.{profile_value};
ghost use Rattle.rule_profile.specs.RuleSpans.{profile_spans};
ghost use Rattle.rule_reader.specs.ReadText.{outcome_of};
ghost use Rattle.question_answers.specs.Findings.{Finding as SomeFinding, IsFinding, finding_value};
ghost use Rattle.question_answers.specs.Below.{rules_below};
ghost use Rattle.rule_reader.specs.Spans.{spans_of};
ghost use Rattle.question_answers.specs.LeastNames.{listed};
ghost use Rattle.trace_questions.specs.Search.{IsSearchOf, IsSearchOutput, IsSearchOutputOf, name_text, no_name_text, nothing_text};
ghost use Rattle.trace_questions.specs.Search.{search_text};
ghost use Rattle.trace_questions.specs.Asked.{asked_of};
ghost use Rattle.trace_questions.specs.inner.Questions.{IsAnswered, IsOfPath};
ghost use Rattle.trace_report.specs.Output.{finding};
ghost use Rattle.trace_report.specs.declared.format.Format.TheVariants.{Text};
ghost use Rattle.trace_report.specs.Streams.{EndsAnswered, IsTextOf, streams};

use crate::answer::{Answer, line_of, put};
use crate::comparison::{compared, compiled, no_rules};
use crate::objects::{found_line, found_word, nothing_line, nothing_word};
use crate::questions::Asked;
use crate::shown::shown_name;
use names::{NoMemory, Perms};
use profile_questions::{Comparison, CompiledRules};
use question_answers::{Finding, Quantifier, find};
use rule_explain::reason_lines;
use rule_profile::Profile;
use rule_reader::read;
use std::alloc::Global;
use std::io::{Read, Write};
use trace_report::{Fault, Format, Status, fail, read_all, write_finding};

/// Reads a profile from `input` and writes to `answers` the least name that the pattern matches and that the profile allows all of
/// the permissions to, or in ascending order the least one for each rule that is the first to allow something, or, for all names,
/// the least that it doesn't; and the reason for each permission. Faults are reported on `faults` instead. The arguments are tested
/// before anything is read.
pub fn search<R: Read, A: Write, F: Write>(
    alloc: Global,
    format: Format,
    quantifier: Quantifier,
    perms: &str,
    pattern: &str,
    input: &mut R,
    answers: &mut A,
    faults: &mut F,
) -> Status
    ensures output { (text : List ℕ) × IsTextOf (R.remaining input.old) text × EndsAnswered
        (streams (A.contents answers.old) (A.contents answers.new) (F.contents faults.old) (F.contents faults.new))
        (IsSearchOutput format quantifier perms.now pattern.now text) result }
    ensures unread { IsErr (asked_of perms.now pattern.now)
        → Keeps (R.remaining input.old) (R.remaining input.new) }
{
    match answer(alloc, format, quantifier, perms, pattern, input) {
        Ok(answer) => write_finding(answers, faults, &answer.text, answer.found),
        Err(fault) => fail(faults, fault, fault.status()),
    }
}

// The answer, or why there is none.
fn answer<R: Read>(
    alloc: Global,
    format: Format,
    quantifier: Quantifier,
    perms: &str,
    pattern: &str,
    input: &mut R,
) -> Result<Answer, Fault>
    ensures output { (text : List ℕ) × IsTextOf (R.remaining input.old) text
        × IsAnswered (IsSearchOutput format quantifier perms.now pattern.now text) result }
    ensures unread { IsErr (asked_of perms.now pattern.now)
        → Keeps (R.remaining input.old) (R.remaining input.new) }
{
    let asked = Asked::of(alloc, perms, pattern)?;
    let text = read_all(alloc, input)?;
    answer_on(alloc, format, quantifier, asked, &text)
}

// The answer by a text.
fn answer_on(
    alloc: Global,
    format: Format,
    quantifier: Quantifier,
    asked: Asked,
    text: &[u8],
) -> Result<Answer, Fault>
    ensures { (path : List Token) → IsOfPath path asked.pattern →
        IsAnswered (IsSearchOutputOf format quantifier asked.ask path text.now (outcome_of text.now)) result }
{
    let profile = read(alloc, text)?;
    let rules = compiled(alloc, profile)?;
    answer_by(alloc, format, quantifier, asked, text, &rules)
}

// The answer by compiled rules.
fn answer_by(
    alloc: Global,
    format: Format,
    quantifier: Quantifier,
    asked: Asked,
    text: &[u8],
    rules: &CompiledRules,
) -> Result<Answer, Fault>
    ensures { (path : List Token) → IsOfPath path asked.pattern → rules.now.spans ≡ spans_of text.now →
        ¬ (AreMoreThan most_sets rules.now.rules) →
        IsAnswered (IsSearchOf format quantifier asked.ask path text.now rules.now.rules) result }
{
    let nothing = no_rules(alloc)?;
    let names = compiled(alloc, asked.pattern)?;
    let comparison = compared(alloc, rules, &nothing, &names)?;
    match answer_among(
        alloc,
        format,
        quantifier,
        asked.ask,
        text,
        rules.profile(),
        &comparison,
    ) {
        Ok(answer) => Ok(answer),
        Err(NoMemory) => Err(Fault::Memory),
    }
}

// What is said of what is found among all names.
fn answer_among(
    alloc: Global,
    format: Format,
    quantifier: Quantifier,
    ask: Perms,
    text: &[u8],
    profile: &Profile,
    comparison: &Comparison<'_>,
) -> Result<Answer, NoMemory>
    ensures { (path : List Token) → comparison.now.second ≡ [] → comparison.now.third ≡ rules_below (Some path) →
        IfOk result (λ answer. (what : SomeFinding) × IsFinding quantifier comparison.now.first path ask what
        × (finding answer.text.items answer.found ≡ search_text format quantifier text.now
        (profile_value profile.now).rules (profile_spans profile.now) ask what)) }
{
    let found = find(alloc, comparison, quantifier, ask)?;
    search_text(alloc, format, quantifier, text, profile, ask, found)
}

// What is said of what is found.
fn search_text(
    alloc: Global,
    format: Format,
    quantifier: Quantifier,
    text: &[u8],
    profile: &Profile,
    ask: Perms,
    found: Finding,
) -> Result<Answer, NoMemory>
    ensures { IfOk result (λ answer. finding answer.text.items answer.found ≡ search_text format quantifier text.now
        (profile_value profile.now).rules (profile_spans profile.now) ask (finding_value found)) }
{
    let Finding::Names(names) = found else {
        return Ok(Answer {
            text: no_name_text(alloc, format)?,
            found: false,
        });
    };
    if names.is_empty() {
        return Ok(Answer {
            text: nothing_text(alloc, format, quantifier)?,
            found: false,
        });
    }
    Ok(Answer {
        text: names_text(alloc, format, quantifier, text, profile, ask, &names)?,
        found: true,
    })
}

// What is said of names.
fn names_text(
    alloc: Global,
    format: Format,
    quantifier: Quantifier,
    text: &[u8],
    profile: &Profile,
    ask: Perms,
    names: &[Vec<u8>],
) -> Result<Vec<u8>, NoMemory>
    ensures { IfOk result (λ lines. lines.items ≡ flat_map (name_text format quantifier text.now (profile_value profile.now).rules
        (profile_spans profile.now) ask) (listed names.now)) }
{
    let mut lines = Vec::new(alloc);
    for name in names {
        put_name(
            &mut lines, alloc, format, quantifier, text, profile, ask, name,
        )?;
    }
    Ok(lines)
}

// Appends what is said of a name.
fn put_name(
    lines: &mut Vec<u8>,
    alloc: Global,
    format: Format,
    quantifier: Quantifier,
    text: &[u8],
    profile: &Profile,
    ask: Perms,
    name: &[u8],
) -> Result<(), NoMemory>
    ensures { OnOk result (lines.new.items ≡ lines.old.items ++ name_text format quantifier text.now (profile_value profile.now).rules
        (profile_spans profile.now) ask name.now) }
{
    match format {
        Format::Text => put_name_lines(lines, alloc, quantifier, text, profile, ask, name),
        Format::Json => put(
            lines,
            &found_line(alloc, quantifier, text, profile, ask, name)?,
        ),
    }
}

// Appends the line of a name, and the reasons.
fn put_name_lines(
    lines: &mut Vec<u8>,
    alloc: Global,
    quantifier: Quantifier,
    text: &[u8],
    profile: &Profile,
    ask: Perms,
    name: &[u8],
) -> Result<(), NoMemory>
    ensures { OnOk result (lines.new.items ≡ lines.old.items ++ name_text Text quantifier text.now (profile_value profile.now).rules
        (profile_spans profile.now) ask name.now) }
{
    put(lines, found_word(quantifier).as_bytes())?;
    put(lines, b" ")?;
    put(lines, &shown_name(alloc, name)?)?;
    put(lines, b"\n")?;
    put(lines, &reason_lines(alloc, text, profile, name, ask)?)
}

// What is said where no name that is taken is found.
fn nothing_text(alloc: Global, format: Format, quantifier: Quantifier) -> Result<Vec<u8>, NoMemory>
    ensures { IfOk result (λ text. text.items ≡ nothing_text format quantifier) }
{
    match format {
        Format::Text => line_of(alloc, nothing_word(quantifier)),
        Format::Json => nothing_line(alloc, nothing_word(quantifier)),
    }
}

// What is said where no name is taken.
fn no_name_text(alloc: Global, format: Format) -> Result<Vec<u8>, NoMemory>
    ensures { IfOk result (λ text. text.items ≡ no_name_text format) }
{
    match format {
        Format::Text => line_of(alloc, "no name matches"),
        Format::Json => nothing_line(alloc, "no name matches"),
    }
}
