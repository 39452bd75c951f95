//! Runs of `aa-trace`, shown: of each case on standard input the program writes the text, and below each command what that writes to
//! its streams. The cases are the file `stdin`, and what must be written is the file `stdout`: worked examples to read and to add to.
//!
//! A case begins with a line `=== TITLE`. The text follows as it is, and then a line `$ COMMAND` for each command that reads it. The
//! line break before a command isn't part of the text: where the text ends with one, an empty line comes before the commands.
//!
//! - `$ aa-trace WORDS` runs the program with these words. A word is written between blanks, or between double quotes. A file that a
//!   word names has this word as its text, and no file can be created.
//! - `$ parse aa-trace WORDS` shows what the words ask for, or what the parser says of them.
//! - `$ plain-bench N` runs a script as `aa-trace run --capacity N` does, on a bench in plain memory.
//! - `$ ONE | TWO` gives what ONE writes to TWO. Between them may be `set PLACE BYTE`, which changes a byte of it, and `first N`,
//!   which keeps the given number of its bytes.
//!
//! In a text and in a command `<<N TEXT>>` stands for TEXT N times, `<<bytes B ..>>` for bytes by their numbers, and `<<words W ..>>`
//! for numbers of four bytes, the lowest byte first; `N*B` among them is N of them.
//!
//! The transcript has what a command writes to standard output, then, after `--- standard error`, what it writes there, if anything,
//! and then `--- status N`, if that isn't 0. For `parse` and `plain-bench` it says `--- as above` where they end as the command before
//! them. It has the same notation for a byte that comes 64 times or more, for what isn't text in ASCII, and for images; `<<end>>`
//! is written where a last line has no line break.
#![tactic(auto)]

mod case;
mod command;
mod ends;
mod expand;
mod show;

use crate::case::show_cases;
use std::io;
use std::io::{BufWriter, Input, Write};

fn main(rt: HostRuntime) -> io::Result<()> {
    let cases = io::read_to_string(rt.alloc(), rt.reader())?;
    let mut output = BufWriter::new(rt.alloc(), io::writer(&rt))?;
    show_cases(&rt, rt.alloc(), &cases, &mut output)?;
    output.flush()
}
