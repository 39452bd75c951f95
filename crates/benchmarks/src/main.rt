//! Benchmarks, each chosen by a word of the command line.
//!
//! - `compile` compiles the profile on standard input, once or as often as its word says, and prints how many states its automaton
//!   has;
//! - `row` plans a change, or follows a path, over a tree in a row in memory;
//! - `cache` changes the tree that threads share, and walks over it, in one thread and in several;
//! - `registry` reads published profiles in threads, concurrently with a publisher;
//! - `open` opens files by sessions in threads, concurrently with a keeper that renames and a publisher that replaces the profile,
//!   which it reads from standard input;
//! - `kept` opens the same files again and again, by sessions that keep verdicts and by sessions that keep none, by the profile on
//!   standard input;
//! - `check` runs each of them once at its smallest size, `compile` with the profile of a file, and `open` and `kept` with that of
//!   another.
//!
//! The words after it say how much is done, and have it timed; with none `row`, `cache`, `registry`, `open` and `kept` do a little,
//! and print whether it was right. `compile` measures nothing itself: that is done by comparing whole runs.
//!
//! The definitions to believe are those in `specs/`.
#![tactic(auto)]

mod compile;
mod registry;

use crate::compile::print_states;
use crate::registry::time_registry;
use open_benchmarks::{time_kept, time_opens};
use row_benchmarks::{time_cache, time_row};
use std::io::{Input, Print, Read};
use std::rt::Runtime;
use std::sync::Wait;
use std::thread::Threads;
use std::{env, fs, io};

fn main(rt: HostRuntime) -> io::Result<()> {
    let words: Vec<String> = env::args(&rt)?.collect(rt.alloc())?;
    let [_program, name, words @ ..] = words.as_slice() else {
        return usage(&rt);
    };
    match name.as_bytes() {
        b"compile" => print_states(&rt, rt.alloc(), words, &input(&rt)?),
        b"row" => time_row(&rt, rt.alloc(), words),
        b"cache" => time_cache(&rt, rt.alloc(), words),
        b"registry" => time_registry(&rt, rt.alloc(), words),
        b"open" => time_opens(&rt, rt.alloc(), words, &input(&rt)?),
        b"kept" => time_kept(&rt, rt.alloc(), words, &input(&rt)?),
        b"check" => check(&rt, words),
        _ => usage(&rt),
    }
}

fn usage<R: Print>(rt: &R) -> io::Result<()> {
    println!(rt;
        "usage: benchmarks compile [COUNT] | row | cache | registry | open | kept | check COMPILED OPENED"
    )
}

// The text on standard input.
fn input<R: Input + AllocGlobal>(rt: &R) -> io::Result<Vec<u8>> {
    let mut text = Vec::new(rt.alloc());
    rt.reader().read_to_end(&mut text)?;
    Ok(text)
}

// Each benchmark once, at its smallest size.
fn check<R: Runtime + AllocGlobal + Threads + Wait + Sync>(
    rt: &R,
    words: &[String],
) -> io::Result<()> {
    let [compiled, opened] = words else {
        return usage(rt);
    };
    print_states(rt, rt.alloc(), &[], &fs::read(rt, compiled.as_str())?)?;
    time_row(rt, rt.alloc(), &[])?;
    time_cache(rt, rt.alloc(), &[])?;
    time_registry(rt, rt.alloc(), &[])?;
    let opened = fs::read(rt, opened.as_str())?;
    time_opens(rt, rt.alloc(), &[], &opened)?;
    time_kept(rt, rt.alloc(), &[], &opened)
}
