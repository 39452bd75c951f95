//! Names judged by the rules.
use crate::profiles::profile_of;
use glob_automaton::{Dfa, compile, told};
use names::Perms;
use rule_text::{Profile, allowed_perms, judge_slow};
use std::alloc::Global;
use std::io;
use std::io::Write;
use test_parts::bytes_of;

/// Shows the verdict on each name: by each rule in turn, and by the automaton where it says something else.
pub(crate) fn show_verdicts<W: Write>(
    alloc: Global,
    text: &[u8],
    asked: &[&str],
    output: &mut W,
) -> io::Result<()> {
    let Some(profile) = profile_of(alloc, text, output)? else {
        return Ok(());
    };
    match compile(alloc, &profile) {
        Ok(dfa) => show_verdicts_of(alloc, &profile, &dfa, asked, output),
        Err(fault) => writeln!(output, "{fault}"),
    }
}

fn show_verdicts_of<W: Write>(
    alloc: Global,
    profile: &Profile,
    dfa: &Dfa,
    asked: &[&str],
    output: &mut W,
) -> io::Result<()> {
    for question in asked {
        let (letters, name) = question.split_once(' ').unwrap_or((question, ""));
        write!(output, "{question}: ")?;
        match Perms::from_letters(letters.as_bytes()) {
            Some(ask) => tell_verdict(profile, dfa, &bytes_of(alloc, name)?, ask, output)?,
            None => writeln!(output, "a letter of no permission")?,
        }
    }
    Ok(())
}

fn tell_verdict<W: Write>(
    profile: &Profile,
    dfa: &Dfa,
    name: &[u8],
    ask: Perms,
    output: &mut W,
) -> io::Result<()> {
    let verdict = judge_slow(profile, name, ask);
    let by_automaton = told(&dfa.record_after(name), ask);
    if by_automaton == verdict {
        writeln!(output, "{verdict}")
    } else {
        writeln!(output, "{verdict}, but by the automaton {by_automaton}")
    }
}

/// Shows what each name is allowed.
pub(crate) fn show_allowed<W: Write>(
    alloc: Global,
    text: &[u8],
    names: &[&str],
    output: &mut W,
) -> io::Result<()> {
    let Some(profile) = profile_of(alloc, text, output)? else {
        return Ok(());
    };
    for name in names {
        let perms = allowed_perms(&profile, &bytes_of(alloc, name)?);
        writeln!(output, "{name}: [{perms}]")?;
    }
    Ok(())
}
