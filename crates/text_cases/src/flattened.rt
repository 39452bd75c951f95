//! Flattened texts: their items and parts, where reading stops, and the letters of permissions.
use crate::memory::given;
use apparmor_text::{Item, read_items};
use apparmor_words::{Stop, StopKind, letters_of};
use std::alloc::Global;
use std::io;
use std::io::Write;

/// Shows the items of a text, each after `~`, and their parts with `|` between them.
pub(crate) fn show_parts<W: Write>(alloc: Global, text: &[u8], output: &mut W) -> io::Result<()> {
    for item in &given(read_items(alloc, text))?.items {
        write!(output, "~")?;
        show_item(item, output)?;
    }
    writeln!(output)
}

fn show_item<W: Write>(item: &Item<'_>, output: &mut W) -> io::Result<()> {
    let mut is_first = true;
    for part in item.parts() {
        if !is_first {
            write!(output, "|")?;
        }
        is_first = false;
        output.write_all(part.bytes())?;
    }
    Ok(())
}

/// Shows where reading a text stops, and for what.
pub(crate) fn tell_stop<W: Write>(alloc: Global, text: &[u8], output: &mut W) -> io::Result<()> {
    match given(read_items(alloc, text))?.stop {
        Some(stop) => tell_stop_at(stop, text.len().saturating_sub(stop.left), output),
        None => writeln!(output, "at the end"),
    }
}

fn tell_stop_at<W: Write>(stop: Stop<'_>, offset: usize, output: &mut W) -> io::Result<()> {
    match stop.kind {
        StopKind::Syntax => write!(output, "syntax")?,
        StopKind::Include => write!(output, "include")?,
        StopKind::Permissions => write!(output, "permissions")?,
        StopKind::LeftOut(word) => {
            write!(output, "left out: ")?;
            output.write_all(word)?;
        }
    }
    writeln!(output, " at byte {offset}")
}

/// Shows what the letters of permissions stand for.
pub(crate) fn tell_letters<W: Write>(word: &[u8], output: &mut W) -> io::Result<()> {
    let Some(letters) = letters_of(word) else {
        return writeln!(output, "none");
    };
    let marks = [
        (letters.exec.is_some(), " exec"),
        (letters.two_modes, " two modes"),
        (letters.capitals, " capitals"),
    ];
    write!(output, "[{}]", letters.perms)?;
    for (holds, mark) in &marks {
        if *holds {
            write!(output, "{mark}")?;
        }
    }
    writeln!(output)
}

/// Shows whether the letters fit a rule that allows, and one that denies.
pub(crate) fn tell_fitting<W: Write>(word: &[u8], output: &mut W) -> io::Result<()> {
    let Some(letters) = letters_of(word) else {
        return writeln!(output, "none");
    };
    let fits = match (letters.are_fitting(false), letters.are_fitting(true)) {
        (true, true) => "allow, deny",
        (true, false) => "allow",
        (false, true) => "deny",
        (false, false) => "neither",
    };
    writeln!(output, "{fits}")
}
