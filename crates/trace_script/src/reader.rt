ghost use Rattle.std.specs.Prelude.{◌≡◌};
ghost use Rattle.trace_script.specs.Engine.{IsLineRead};

use crate::stop::Stop;
use std::io::BufRead;

/// A line that was read, by what ended it.
#[derive(Clone, Copy)]
pub enum LineRead {
    /// A line feed.
    Whole,
    /// The end of the input, which has no more lines.
    Last,
    /// No line was left.
    End,
}

/// Reads the next line, without its line feed, replacing the contents of `line`.
pub fn read_line<R: BufRead>(input: &mut R, line: &mut Vec<u8>) -> Result<LineRead, Stop>
    ensures { IsLineRead (R.remaining input.old) (R.remaining input.new) line.new.items result }
{
    line.clear();
    input.read_until(b'\n', line)?;
    if line.is_empty() {
        return Ok(LineRead::End);
    }
    if line.ends_with(b"\n") {
        line.pop();
        return Ok(LineRead::Whole);
    }
    Ok(LineRead::Last)
}
