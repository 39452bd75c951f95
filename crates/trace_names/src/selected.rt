//! The names of a list that are written, with their verdicts.
ghost use Rattle.std.specs.Prelude.{◌≡◌, ◌++◌, IfOk, OnOk};
ghost use Rattle.matcher.specs.Profiles.{rules_of};
ghost use Rattle.rule_globs.specs.PlainVerdict.{verdict};
ghost use Rattle.trace_names.specs.Names.{after_name, name_text, names_text};
ghost use Rattle.trace_names.specs.inner.Written.{judged_text};

use crate::choice::NamesChoice;
use crate::list::first_name;
use matcher::{CompiledProfile, judge, tables_of_rules_tell_their_verdicts};
use names::{NoMemory, Perms, Verdict};
use std::alloc::Global;

/// What is written of the names of a list.
pub(crate) fn selected_names(
    alloc: Global,
    choice: NamesChoice,
    profile: &CompiledProfile,
    ask: Perms,
    list: &[u8],
) -> Result<Vec<u8>, NoMemory>
    ensures { IfOk result (λ text. text.items ≡ names_text choice (rules_of profile.now) ask list.now) }
{
    let mut text = Vec::new(alloc);
    let mut rest = list;
    while let Some((name, more)) = first_name(rest, choice.end) {
        put_judged(&mut text, alloc, choice, profile, ask, name)?;
        rest = more;
    }
    Ok(text)
}

// Appends a name, if its verdict is one of those that are chosen.
fn put_judged(
    text: &mut Vec<u8>,
    alloc: Global,
    choice: NamesChoice,
    profile: &CompiledProfile,
    ask: Perms,
    name: &[u8],
) -> Result<(), NoMemory>
    ensures { OnOk result (text.new.items ≡ text.old.items ++ judged_text choice (rules_of profile.now) ask name.now) }
{
    let verdict = verdict_on(profile, ask, name);
    if choice.selection.takes(verdict) {
        put_name(text, alloc, choice, name, verdict)
    } else {
        Ok(())
    }
}

// The verdict of a profile's rules on a name.
fn verdict_on(profile: &CompiledProfile, ask: Perms, name: &[u8]) -> Verdict
    ensures { result ≡ verdict (rules_of profile.now) name.now ask }
{
    tables_of_rules_tell_their_verdicts();
    judge(profile.table(), name, ask)
}

// Appends a name, its verdict if that is asked for, and its end.
fn put_name(
    text: &mut Vec<u8>,
    alloc: Global,
    choice: NamesChoice,
    name: &[u8],
    verdict: Verdict,
) -> Result<(), NoMemory>
    ensures { OnOk result (text.new.items ≡ text.old.items ++ name_text choice name.now verdict) }
{
    put(text, name)?;
    if choice.verdicts {
        put_verdict(text, alloc, verdict)?;
    }
    put(text, &[choice.end.byte()])
}

// Appends a colon, a space and a verdict.
fn put_verdict(text: &mut Vec<u8>, alloc: Global, verdict: Verdict) -> Result<(), NoMemory>
    ensures { OnOk result (text.new.items ≡ text.old.items ++ after_name verdict) }
{
    // A verdict with a number or with permissions is formatted, which takes as long as judging a name.
    if verdict == Verdict::Allowed {
        return put(text, b": allowed");
    }
    match format!(in alloc; ": {verdict}") {
        Ok(told) => put(text, told.as_bytes()),
        Err(_) => Err(NoMemory),
    }
}

// Appends bytes.
fn put(text: &mut Vec<u8>, bytes: &[u8]) -> Result<(), NoMemory>
    ensures { OnOk result (text.new.items ≡ text.old.items ++ bytes.now) }
{
    match text.extend_from_slice(bytes) {
        Ok(()) => Ok(()),
        Err(_) => Err(NoMemory),
    }
}
