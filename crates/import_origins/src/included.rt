//! The files that a flattened text names where they begin in it.
ghost use Rattle.std.specs.Prelude.{◌≡◌, ◌++◌, IfOk, None, option_map, map};
ghost use Rattle.import_origins.specs.Included.{file_of_line, last_file, line_marks};
ghost use Rattle.import_origins.specs.inner.Marks.{mark_value};

use names::NoMemory;
use std::alloc::Global;
use std::marker::Model;

/// A file that is named in a line, and how many bytes of the text come before the line after it.
#[derive(Clone, Copy, Debug)]
struct Mark<'t> {
    file: &'t [u8],
    end: usize,
}

/// The files that a flattened text names where they begin in it, in the order of the text. To contracts they are the list of
/// their marks.
#[derive(Debug, Drop)]
pub struct IncludedFiles<'t> {
    marks: Vec<Mark<'t>>,
}

impl<'t> Model for IncludedFiles<'t> {
    ghost use Rattle.std.specs.Prelude.{List, map};
    ghost use Rattle.import_origins.specs.Included.{Mark as MarkValue};
    ghost use Rattle.import_origins.specs.inner.Marks.{mark_value};

    ghost Value = { List MarkValue };

    ghost view = { λ f. map mark_value f.marks.items };
}

impl<'t> IncludedFiles<'t> {
    ghost use Rattle.std.specs.Prelude.{◌≡◌, IfOk, None, option_map};
    ghost use Rattle.import_origins.specs.Included.{last_file, marks_of};

    /// The files that this text names.
    pub fn of(alloc: Global, text: &'t [u8]) -> Result<IncludedFiles<'t>, NoMemory>
        ensures { IfOk result (λ files. files ≡ marks_of text.now) }
    {
        let mut marks = Vec::new(alloc);
        let mut start = 0;
        for (i, byte) in text.iter().enumerate() {
            if *byte == b'\n' {
                push_mark(&mut marks, &text[start..i], i + 1)?;
                start = i + 1;
            }
        }
        Ok(IncludedFiles { marks })
    }

    /// The file that is named last before the byte at `offset`, as the text names it: `<abstractions/base>`. The byte is in that
    /// file or after it, since the text doesn't say where a file ends.
    pub fn before(&self, offset: usize) -> Option<&'t [u8]>
        ensures { option_map (λ file. file.now) result ≡ last_file offset self.now None }
    {
        last_before(&self.marks, offset)
    }
}

/// The file of the last of these marks that ends before the byte at `offset`.
fn last_before<'t>(marks: &[Mark<'t>], offset: usize) -> Option<&'t [u8]>
    ensures { option_map (λ file. file.now) result ≡ last_file offset (map mark_value marks.now) None }
{
    let mut last = None;
    for mark in marks {
        if mark.end <= offset {
            last = Some(mark.file);
        }
    }
    last
}

/// The file that a line names.
fn file_of_line(line: &[u8]) -> Option<&[u8]>
    ensures { option_map (λ file. file.now) result ≡ file_of_line line.now }
{
    if line.starts_with(b"##included ") {
        Some(&line[11..])
    } else {
        None
    }
}

/// Adds the mark of a line, if it names a file, after which the next line begins at `end`.
fn push_mark<'t>(marks: &mut Vec<Mark<'t>>, line: &'t [u8], end: usize) -> Result<(), NoMemory>
    ensures { IfOk result (λ _. map mark_value marks.new.items ≡ map mark_value marks.old.items ++ line_marks end line.now) }
{
    let Some(file) = file_of_line(line) else {
        return Ok(());
    };
    match marks.push(Mark { file, end }) {
        Ok(()) => Ok(()),
        Err(_) => Err(NoMemory),
    }
}
