//! Texts, and what is reported about them: tests of the libraries that read texts and judge names by them. The program reads cases from
//! standard input, and writes each with what is reported about its text. The file `stdout` has what it must write, so it reads as a
//! list of worked examples.
//!
//! A case begins with a line `=== ` and a title. The next line is the view, which says what is asked. Lines that begin with `+ `
//! are options of the view, and what follows them is the text, as `bytes_of` of `test_parts` reads it; the line end before the
//! next case is not a part of it. Where a view is of lines, each line of the text is a text of its own, and is written before what
//! is reported about it.
//!
//! | view | options | what is written |
//! |---|---|---|
//! | `profile`, `profiles` | | `a profile`, or the fault |
//! | `items` | | the profile's name, and of each rule the permissions and the items of the path |
//! | `canonical` | | the canonical text, and what that is written as where it differs |
//! | `rules` | | of each rule its part of the text, and how it is written by itself |
//! | `verdicts` | letters and a name | the verdict by the rules, and by the automaton where that differs |
//! | `allowed` | a name | the permissions that the rules allow to the name |
//! | `states` | | how many states the automaton has, or why there is none |
//! | `records` | a name | for each permission the least numbers of a rule that allows and of one that denies, 0 for none |
//! | `agreement` | four bytes | whether rules and automaton agree on each list of at most five of these bytes |
//! | `parts` | | the items of a flattened text, each after `~`, and their parts with a bar between them |
//! | `stops` | | where reading a flattened text stops, and for what |
//! | `letters` | | the permissions of a flattened text's letters, and what else they have |
//! | `fitting letters` | | which rules the letters fit, those that allow or those that deny |
//! | `leads` | | rules with the paths that a path's text is led to |
//! | `path texts` | | whether it is a path's text, and whether its items are a path of a profile |
//! | `choices` | | whether each group of a path's text is a choice |
//! | `readings alike` | | whether AppArmor reads a path's text alike |
//! | `profile names` | | whether a profile may have the name |
//! | `substituted` | a variable's name, and its values in quotes | what `show_substituted` shows of `path`, `first` and `count` |
//! | `slashes` | | the text with one slash for each run |
//! | `paths`, `components` | | `a path` or the error; its components with a bar between each two |
//! | `effects` | `other`, if not for the owner | of the shape of a rule, what restating it for this subject changes |
#![tactic(auto)]

mod canonical;
mod case;
mod compiled;
mod flattened;
mod items;
mod judgment;
mod leads;
mod lines;
mod memory;
mod named;
mod profiles;
mod subjects;
mod variables;

use crate::case::show_all;
use std::io;
use std::io::{BufWriter, Input};

fn main(rt: HostRuntime) -> io::Result<()> {
    let cases = io::read_to_string(rt.alloc(), rt.reader())?;
    let mut output = BufWriter::new(rt.alloc(), io::writer(&rt))?;
    show_all(rt.alloc(), &cases, &mut output)
}
