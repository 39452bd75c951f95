//! Changes, written as lines.
use directory_tree::Change;
use std::test::Fail;
use test_parts::change_of_line;

/// The change of a line: a verb and one or two words.
pub(crate) fn change<'a>(line: &'a str) -> Result<Change<'a>, Fail> {
    Ok(change_of_line(line.as_bytes()).ok_or("a line that isn't understood")?)
}
