//! Paths with variables.
use crate::memory::given;
use apparmor_pieces::one_slash;
use apparmor_variables::{ExpandFault, Lists, Variable};
use names::NoMemory;
use std::alloc::{AllocError, Global};
use std::io;
use std::io::Write;
use test_parts::Case;

/// Shows each line, of a path what it is with the variables in place, and of a number what the variables but the first count, or
/// that it is more. A line that gives the first variable another value is shown alone.
pub(crate) fn show_substituted<W: Write>(
    alloc: Global,
    case: &Case<'_>,
    output: &mut W,
) -> io::Result<()> {
    let mut lists = lists_of(alloc, &case.options)?;
    for line in case.text.lines() {
        write!(output, "{line}")?;
        let (word, rest) = line.split_once(' ').unwrap_or((line, ""));
        match word {
            "path" => tell_substituted(alloc, &mut lists, rest, output)?,
            "first" => given(lists.set_first(alloc, rest.as_bytes()))?,
            "count" => tell_count(alloc, &mut lists, rest, output)?,
            _ => write!(output, ": no line")?,
        }
        writeln!(output)?;
    }
    Ok(())
}

/// The variables that these options have.
fn lists_of<'a>(alloc: Global, options: &[&'a str]) -> io::Result<Lists<'a>> {
    let mut variables = Vec::new(alloc);
    for option in options {
        variables.push(given(variable_of(alloc, option))?)?;
    }
    given(Lists::new(alloc, variables))
}

/// The variable of a name, and of values in quotes.
fn variable_of(alloc: Global, option: &str) -> Result<Variable<'_>, NoMemory> {
    let (name, values) = option.split_once(' ').unwrap_or((option, ""));
    match values_of(alloc, values) {
        Ok(values) => Variable::new(alloc, name.as_bytes(), values),
        Err(_) => Err(NoMemory),
    }
}

fn values_of(alloc: Global, quoted: &str) -> Result<Vec<&[u8]>, AllocError> {
    let mut values = Vec::new(alloc);
    let mut is_value = false;
    for piece in quoted.split('"') {
        if is_value {
            values.push(piece.as_bytes())?;
        }
        is_value = !is_value;
    }
    Ok(values)
}

fn tell_substituted<'a, W: Write>(
    alloc: Global,
    lists: &mut Lists<'a>,
    path: &'a str,
    output: &mut W,
) -> io::Result<()> {
    write!(output, ": ")?;
    match lists.substitute(alloc, path.as_bytes()) {
        Ok(text) => output.write_all(&text),
        Err(ExpandFault::Undefined { name }) => tell_fault("undefined", name, output),
        Err(ExpandFault::Cycle { name }) => tell_fault("cycle", name, output),
        Err(ExpandFault::TooLong) => write!(output, "too long"),
        Err(ExpandFault::NoMemory) => write!(output, "no memory"),
    }
}

/// Shows what the variables but the first count, if it is at most this number.
fn tell_count<W: Write>(
    alloc: Global,
    lists: &mut Lists<'_>,
    most: &str,
    output: &mut W,
) -> io::Result<()> {
    match given(lists.count_others(alloc, most.parse().unwrap_or(0)))? {
        Some(count) => write!(output, ": {count}"),
        None => write!(output, ": more"),
    }
}

fn tell_fault<W: Write>(fault: &str, name: &[u8], output: &mut W) -> io::Result<()> {
    write!(output, "{fault} ")?;
    output.write_all(name)
}

/// Shows the text with one slash for each run.
pub(crate) fn tell_slashes<W: Write>(alloc: Global, text: &[u8], output: &mut W) -> io::Result<()> {
    output.write_all(&given(one_slash(alloc, text))?)?;
    writeln!(output)
}
