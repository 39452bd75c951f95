//! Scripts, run line by line.
use crate::lines::{Line, read_line};
use crate::random::{Failure, change_at_random};
use crate::reports::tell;
use crate::twins::Twins;
use std::alloc::Global;
use std::io;
use std::io::Write;
use test_parts::bytes_of;
use tree_row::MOST_ENTRIES;

/// Writes each line of the scripts, and its outcome.
pub(crate) fn run_all<W: Write>(alloc: Global, scripts: &str, output: &mut W) -> io::Result<()> {
    let mut tree = None;
    for written in scripts.lines() {
        write!(output, "{written}")?;
        let bytes = bytes_of(alloc, written)?;
        run(alloc, &mut tree, read_line(&bytes), output)?;
        writeln!(output)?;
    }
    output.flush()
}

fn run<W: Write>(
    alloc: Global,
    tree: &mut Option<Twins>,
    line: Option<Line<'_>>,
    output: &mut W,
) -> io::Result<()> {
    match line {
        None => write!(output, ": not a line"),
        Some(Line::Comment) => Ok(()),
        Some(Line::Room(capacity)) => begin(alloc, tree, capacity, output),
        Some(Line::Draw { capacity, rounds }) => draw(alloc, capacity, rounds, output),
        Some(line) => run_on_tree(tree, &line, output),
    }
}

// The root alone, with room for this many entries.
fn begin<W: Write>(
    alloc: Global,
    tree: &mut Option<Twins>,
    capacity: usize,
    output: &mut W,
) -> io::Result<()> {
    if capacity > MOST_ENTRIES {
        return write!(output, ": too many");
    }
    match Twins::new(alloc, capacity) {
        Ok(twins) => {
            *tree = Some(twins);
            Ok(())
        }
        Err(_) => write!(output, ": no memory"),
    }
}

fn run_on_tree<W: Write>(
    tree: &mut Option<Twins>,
    line: &Line<'_>,
    output: &mut W,
) -> io::Result<()> {
    write!(output, ": ")?;
    match tree {
        Some(tree) => tell(tree, line, output),
        None => write!(output, "no tree"),
    }
}

fn draw<W: Write>(alloc: Global, capacity: usize, rounds: usize, output: &mut W) -> io::Result<()> {
    if capacity > MOST_ENTRIES {
        return write!(output, ": too many");
    }
    match change_at_random(alloc, capacity, rounds) {
        Ok(made) => write!(output, ": changes made: {made}"),
        Err(Failure::NoMemory) => write!(output, ": no memory"),
        Err(Failure::NotAPath) => write!(output, ": a path that is none"),
        Err(Failure::Differ) => write!(output, ": the trees differ"),
    }
}
