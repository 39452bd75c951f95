//! Texts of paths: what they are led to, and how they are read.
use crate::memory::given;
use names::{NoMemory, Permission, Perms};
use rule_making::{groups_have_alternatives, is_read_alike, led, path_of};
use rule_reader::read_path;
use rule_text::{Rule, RuleKind, RulePath, write_rule};
use std::alloc::Global;
use std::io;
use std::io::Write;

/// Shows the rules whose paths a path's text is led to, each as it is written by itself.
pub(crate) fn tell_led<W: Write>(alloc: Global, text: &[u8], output: &mut W) -> io::Result<()> {
    match read_path(alloc, text) {
        Ok(Some(items)) => tell_rules(alloc, given(led(alloc, &items))?, output),
        Ok(None) => writeln!(output, "no path's text"),
        Err(NoMemory) => writeln!(output, "no memory"),
    }
}

fn tell_rules<W: Write>(alloc: Global, paths: Vec<RulePath>, output: &mut W) -> io::Result<()> {
    if paths.is_empty() {
        return writeln!(output, "no path");
    }
    let mut is_first = true;
    for path in paths {
        if !is_first {
            write!(output, " ")?;
        }
        is_first = false;
        tell_rule(alloc, path, output)?;
    }
    writeln!(output)
}

fn tell_rule<W: Write>(alloc: Global, path: RulePath, output: &mut W) -> io::Result<()> {
    let read = Perms::NONE.with(Permission::Read);
    let rule = Rule::new(RuleKind::Allow, read, path);
    output.write_all(&given(write_rule(alloc, &rule))?)
}

/// Shows whether the text is a path's, and whether its items are a path of a profile.
pub(crate) fn tell_path_text<W: Write>(
    alloc: Global,
    text: &[u8],
    output: &mut W,
) -> io::Result<()> {
    match read_path(alloc, text) {
        Ok(Some(items)) => match path_of(items) {
            Some(_) => writeln!(output, "a path of a profile"),
            None => writeln!(output, "no path of a profile"),
        },
        Ok(None) => writeln!(output, "no path's text"),
        Err(NoMemory) => writeln!(output, "no memory"),
    }
}

/// Shows whether each group has two alternatives or more.
pub(crate) fn tell_choices<W: Write>(alloc: Global, text: &[u8], output: &mut W) -> io::Result<()> {
    match given(read_path(alloc, text))? {
        Some(items) if groups_have_alternatives(&items) => writeln!(output, "choices"),
        Some(_) => writeln!(output, "a group that is no choice"),
        None => writeln!(output, "no path's text"),
    }
}

/// Shows whether AppArmor and this language read a path's text alike.
pub(crate) fn tell_alike<W: Write>(text: &[u8], output: &mut W) -> io::Result<()> {
    if is_read_alike(text) {
        writeln!(output, "read alike")
    } else {
        writeln!(output, "read in two ways")
    }
}
