//! Storms: walks or opens in threads concurrently with random changes, whose answers are checked afterwards against what was really
//! changed. Each has a word of the command line:
//!
//! - `walk` walks over a row while its keeper changes it, and compares each walk with a plain tree;
//! - `open` opens random paths by several profiles while the tree and the policy change, and has each answer justified;
//! - `check` runs each of them once.
//!
//! The words after it say how much is done. On standard output is whether the answers are right; on standard error, how many answers
//! there were, and how many changes.
#![tactic(auto)]

mod opens;
mod walks;

use crate::opens::storm_of_opens;
use crate::walks::storm_of_walks;
use std::io::{Eprint, Print};
use std::sync::Wait;
use std::thread::Threads;
use std::{env, io};

fn main(rt: HostRuntime) -> io::Result<()> {
    let words: Vec<String> = env::args(&rt)?.collect(rt.alloc())?;
    let [_program, name, words @ ..] = words.as_slice() else {
        return usage(&rt);
    };
    match name.as_bytes() {
        b"walk" => storm_of_walks(&rt, rt.alloc(), words),
        b"open" => storm_of_opens(&rt, rt.alloc(), words),
        b"check" => check(&rt),
        _ => usage(&rt),
    }
}

fn usage<R: Print>(rt: &R) -> io::Result<()> {
    println!(rt; "usage: random_storms walk | open | check")
}

// Each storm once.
fn check<R: Print + Eprint + AllocGlobal + Threads + Wait + Sync>(rt: &R) -> io::Result<()> {
    storm_of_walks(rt, rt.alloc(), &[])?;
    storm_of_opens(rt, rt.alloc(), &[])
}
