//! `aa-trace`: says what profiles of file rules make of names, and of opens in a directory tree.
//!
//! `aa-trace judge PERMS NAME` judges a name by the profile on standard input: it writes `allowed`, `denied by rule K` or
//! `no rule for LETTERS`. `aa-trace compile --depth N` writes the image of that profile. `aa-trace check` tests the image on standard
//! input, and `aa-trace match PERMS NAME` judges a name by it. `aa-trace run --capacity N` answers the script on standard
//! input line by line: changes of a tree, profiles, and judged opens. `aa-trace test --capacity N` compares the answers with lines
//! of the script that expect them. `aa-trace steps --capacity N` takes the events of the script on standard input one at a time:
//! opens by several sessions, each read of a word and each store, in the script's order.
//! `aa-trace storm --sessions N --opens N --changes N` opens a file in threads, concurrently with renames and new profiles, and
//! writes how many answers there were, and how many of them aren't justified by what was changed.
//! `aa-trace explain PERMS NAME` writes what `judge` does, and why; where the profile is refused, it shows the line of the fault.
//! `aa-trace import` brings a profile of the flattened AppArmor text on standard input into this program's language, and gives an
//! account of the rest on standard error. `aa-trace names PERMS PROFILE` writes those names of the list on standard input that a
//! profile allows, and `aa-trace audit PROFILES..` what profiles say of the denials in the log there. `aa-trace any`, `all`, `diff`
//! and `lint` answer questions about every name.
//! Faults go to standard error, with `-v` in words, too. The exit status is 0 for answers; 1 for an answer that a test doesn't
//! expect, for what a question about every name found, and with `-q` for a name that isn't allowed; 2 for a bad command line; 3 for
//! a refused text, profile, image or stream, or an answer of a storm that isn't justified; and 4 where there is no memory, no thread
//! or no seat.
//!
//! `trace_program` does all of this over any streams; here are the command line and the standard streams.
#![tactic(auto)]

use named_texts::SystemFiles;
use names::NoMemory;
use std::fs::Files;
use std::io::{BufReader, ErrorKind, Input, Print, Write};
use std::process::ExitCode;
use std::rt::Env;
use std::sync::Wait;
use std::thread::Threads;
use std::{env, io};
use trace_program::run_words;
use trace_report::{Status, fail};

fn main(rt: HostRuntime) -> ExitCode {
    let mut faults = rt.stderr();
    let status = match words(&rt) {
        Ok(words) => run_on_streams(&rt, &words, &mut faults),
        Err(error) if error.kind() == ErrorKind::OutOfMemory => {
            fail(&mut faults, NoMemory, Status::NoMemory)
        }
        Err(_) => fail(
            &mut faults,
            "the command line isn't text in UTF-8",
            Status::BadArguments,
        ),
    };
    ExitCode::from(status.code())
}

/// Does what the words ask for, on standard input and output.
fn run_on_streams<R: Input + Print + AllocGlobal + Files + Threads + Wait + Sync, F: Write>(
    rt: &R,
    words: &[String],
    faults: &mut F,
) -> Status {
    match BufReader::new(rt.alloc(), rt.reader()) {
        Ok(mut input) => run_words(
            rt,
            rt.alloc(),
            &SystemFiles { files: rt },
            words,
            &mut input,
            &mut io::writer(rt),
            faults,
        ),
        Err(_) => fail(faults, NoMemory, Status::NoMemory),
    }
}

/// The words of the command line, the program's name first.
fn words<R: Env + AllocGlobal>(rt: &R) -> io::Result<Vec<String>> {
    let words = env::args(rt)?.collect(rt.alloc())?;
    Ok(words)
}
