//! The lines about two profiles.
ghost use Rattle.std.specs.Prelude.{◌≡◌, ◌++◌, ℕ, List, Option, IfOk, OnOk, false};
ghost use Rattle.std.specs.List.{flat_map};
ghost use Rattle.rule_globs.specs.Tokens.{Token};
ghost use Rattle.rule_profile.specs.RuleSpans.{profile_spans};
ghost use Rattle.rule_reader.specs.Spans.{spans_of};
ghost use Rattle.question_answers.specs.Alone.{AreAlone};
ghost use Rattle.question_answers.specs.LeastNames.{listed};
ghost use Rattle.trace_questions.specs.Differences.{IsCompared, difference_text, sign, words_text};
ghost use Rattle.trace_questions.specs.inner.Differences.{AreCompared, versions_value};
ghost use Rattle.trace_report.specs.Output.{finding};
ghost use Rattle.trace_report.specs.declared.format.Format.TheVariants.{Text};

use crate::answer::{self, line_of, put};
use crate::objects::{difference_line, word_line};
use crate::report::Report;
use crate::shown::shown_name;
use names::{NoMemory, Permission};
use profile_questions::Comparison;
use question_answers::{Side, differences, some_name};
use rule_explain::reason_text;
use rule_profile::Profile;
use std::alloc::Global;
use trace_report::Format;

/// Two profiles with their texts.
#[derive(Clone, Copy)]
pub(crate) struct Versions<'a> {
    pub(crate) before: &'a [u8],
    pub(crate) old: &'a Profile,
    pub(crate) after: &'a [u8],
    pub(crate) new: &'a Profile,
}

/// Which names are compared, and which of them are listed.
#[derive(Clone, Copy)]
pub(crate) struct Listing {
    /// Only those that the third rules match are compared.
    pub(crate) restricted: bool,
    pub(crate) report: Report,
}

/// The lines of all permissions that one of the profiles alone allows to some names, or that there are none, or that there is no
/// name to be compared.
pub(crate) fn changes(
    alloc: Global,
    comparison: &Comparison<'_>,
    versions: &Versions<'_>,
    listing: Listing,
) -> Result<answer::Answer, NoMemory>
    ensures { (below : Option (List Token)) → AreCompared comparison.now versions.now listing.restricted below →
        IfOk result (λ answer. IsCompared listing.report below (versions_value versions.now) (finding answer.text.items answer.found)) }
{
    if !some_name(alloc, comparison, listing.restricted)? {
        return words_answer(alloc, listing.report.format, "no name matches");
    }
    let mut text = Vec::new(alloc);
    for permission in Permission::ALL {
        put_change(
            &mut text,
            alloc,
            comparison,
            versions,
            listing,
            permission,
            Side::New,
        )?;
        put_change(
            &mut text,
            alloc,
            comparison,
            versions,
            listing,
            permission,
            Side::Old,
        )?;
    }
    if text.is_empty() {
        return words_answer(alloc, listing.report.format, "same");
    }
    Ok(answer::Answer { text, found: true })
}

// An answer of words alone, in which nothing is found.
fn words_answer(alloc: Global, format: Format, words: &str) -> Result<answer::Answer, NoMemory>
    ensures text { IfOk result (λ answer. answer.text.items ≡ words_text format words.now) }
    ensures found { IfOk result (λ answer. answer.found ≡ false) }
{
    let text = match format {
        Format::Text => line_of(alloc, words)?,
        Format::Json => word_line(alloc, words)?,
    };
    Ok(answer::Answer { text, found: false })
}

// Appends the lines of a permission that this profile alone allows to some names, if it does.
fn put_change(
    text: &mut Vec<u8>,
    alloc: Global,
    comparison: &Comparison<'_>,
    versions: &Versions<'_>,
    listing: Listing,
    permission: Permission,
    side: Side,
) -> Result<(), NoMemory>
    ensures { (below : Option (List Token)) → AreCompared comparison.now versions.now listing.restricted below →
        OnOk result ((names : List (List ℕ)) × AreAlone listing.report.witnesses below (versions_value versions.now).old.rules
        (versions_value versions.now).new.rules permission side names
        × (text.new.items ≡ text.old.items
        ++ flat_map (difference_text listing.report.format (versions_value versions.now) permission side) names)) }
{
    let names = differences(
        alloc,
        comparison,
        listing.restricted,
        permission,
        side,
        listing.report.witnesses,
    )?;
    put_lines(
        text,
        alloc,
        listing.report.format,
        versions,
        permission,
        side,
        &names,
    )
}

// Appends the lines of names.
fn put_lines(
    text: &mut Vec<u8>,
    alloc: Global,
    format: Format,
    versions: &Versions<'_>,
    permission: Permission,
    side: Side,
    names: &[Vec<u8>],
) -> Result<(), NoMemory>
    ensures { profile_spans versions.now.old.now ≡ spans_of versions.now.before.now →
        profile_spans versions.now.new.now ≡ spans_of versions.now.after.now →
        OnOk result (text.new.items ≡ text.old.items
        ++ flat_map (difference_text format (versions_value versions.now) permission side) (listed names.now)) }
{
    for name in names {
        put_line(text, alloc, format, versions, permission, side, name)?;
    }
    Ok(())
}

// Appends the line of a name.
fn put_line(
    text: &mut Vec<u8>,
    alloc: Global,
    format: Format,
    versions: &Versions<'_>,
    permission: Permission,
    side: Side,
    name: &[u8],
) -> Result<(), NoMemory>
    ensures { profile_spans versions.now.old.now ≡ spans_of versions.now.before.now →
        profile_spans versions.now.new.now ≡ spans_of versions.now.after.now →
        OnOk result (text.new.items ≡ text.old.items
        ++ difference_text format (versions_value versions.now) permission side name.now) }
{
    match format {
        Format::Text => put_text_line(text, alloc, versions, permission, side, name),
        Format::Json => put(
            text,
            &difference_line(alloc, versions, permission, side, name)?,
        ),
    }
}

// Appends the line of a name, as text.
fn put_text_line(
    text: &mut Vec<u8>,
    alloc: Global,
    versions: &Versions<'_>,
    permission: Permission,
    side: Side,
    name: &[u8],
) -> Result<(), NoMemory>
    ensures { profile_spans versions.now.old.now ≡ spans_of versions.now.before.now →
        profile_spans versions.now.new.now ≡ spans_of versions.now.after.now →
        OnOk result (text.new.items ≡ text.old.items
        ++ difference_text Text (versions_value versions.now) permission side name.now) }
{
    put(text, sign(side))?;
    put(text, &[permission.letter()])?;
    put(text, b" ")?;
    put(text, &shown_name(alloc, name)?)?;
    put(text, b": ")?;
    put(
        text,
        &reason_text(alloc, versions.after, versions.new, name, permission)?,
    )?;
    put(text, b"; was: ")?;
    put(
        text,
        &reason_text(alloc, versions.before, versions.old, name, permission)?,
    )?;
    put(text, b"\n")
}

// What comes before a permission that this profile alone allows.
fn sign(side: Side) -> &'static [u8]
    ensures { result.now ≡ sign side }
{
    match side {
        Side::New => b"+ ",
        Side::Old => b"- ",
    }
}
