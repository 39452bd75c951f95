//! Profiles and rules as they are written.
use crate::memory::given;
use crate::profiles::profile_of;
use rule_text::{Profile, Rule, read, write, write_rule};
use std::alloc::Global;
use std::io;
use std::io::Write;

/// Shows the canonical text, and what it is written as again where that differs.
pub(crate) fn show_canonical<W: Write>(
    alloc: Global,
    text: &[u8],
    output: &mut W,
) -> io::Result<()> {
    let Some(profile) = profile_of(alloc, text, output)? else {
        return Ok(());
    };
    let canonical = given(write(alloc, &profile))?;
    output.write_all(&canonical)?;
    match read(alloc, &canonical) {
        Ok(again) => show_again(alloc, &canonical, &again, output),
        Err(fault) => writeln!(output, "{fault}"),
    }
}

fn show_again<W: Write>(
    alloc: Global,
    canonical: &[u8],
    profile: &Profile,
    output: &mut W,
) -> io::Result<()> {
    let again = given(write(alloc, profile))?;
    if again.as_slice() != canonical {
        writeln!(output, "which is written as")?;
        output.write_all(&again)?;
    }
    Ok(())
}

/// Shows the part of the text that is each rule, and how it is written by itself.
pub(crate) fn show_rules<W: Write>(alloc: Global, text: &[u8], output: &mut W) -> io::Result<()> {
    let Some(profile) = profile_of(alloc, text, output)? else {
        return Ok(());
    };
    for rule in profile.rules() {
        show_rule(alloc, text, rule, output)?;
    }
    Ok(())
}

fn show_rule<W: Write>(alloc: Global, text: &[u8], rule: &Rule, output: &mut W) -> io::Result<()> {
    let span = rule.span();
    if let Some(stands) = text.get(span.start..span.end) {
        output.write_all(stands)?;
    }
    writeln!(output, "\nis written as")?;
    output.write_all(&given(write_rule(alloc, rule))?)?;
    writeln!(output)
}
