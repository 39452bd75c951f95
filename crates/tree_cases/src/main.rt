//! Scripts of changes of one tree, in a row in memory and in plain memory, which have to answer alike: tests of `row_plan`. The
//! program reads scripts from standard input, and writes each line with its outcome. The file `stdout` has what it must
//! write, so it reads as a list of worked changes.
//!
//! The lines of a script, in which `bytes_of` of `test_parts` reads brackets:
//!
//! | line | is written with |
//! |---|---|
//! | `room N` | nothing: the lines that follow are of a new tree, with room for N entries |
//! | `mkdir P`, `create P`, `symlink TEXT P`, `link OLD NEW`, `unlink P`, `rmdir P`, `rename OLD NEW` | `ok VERSION`, or the error |
//! | `plan CHANGE` | the cells that the change would set, each as its place and its word |
//! | `name P` | the name of the place that P leads to, or the error |
//! | `node P` | the number of the node that P leads to, a last link not followed, or the error |
//! | `text P` | the text of the link that P leads to |
//! | `draw N ROUNDS` | how many changes were made of a hundred a round, drawn at random, in trees with room for N entries |
//! | one that is empty, or begins with `=` or `#` | nothing |
//!
//! After each change both trees have to report the same for many paths, and the words of the row after its slots have to be its index.
//! The test of a change has to return what the change then answers, and to change nothing.
#![tactic(auto)]

mod creation;
mod index;
mod lines;
mod random;
mod reports;
mod scripts;
mod twins;

use crate::scripts::run_all;
use std::io;
use std::io::{BufWriter, Input};

fn main(rt: HostRuntime) -> io::Result<()> {
    let scripts = io::read_to_string(rt.alloc(), rt.reader())?;
    let mut output = BufWriter::new(rt.alloc(), io::writer(&rt))?;
    run_all(rt.alloc(), &scripts, &mut output)
}
