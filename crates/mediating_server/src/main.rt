//! A small mediating server: sessions in threads answer opens of a directory tree by a profile, which is read again whenever its
//! file has changed.
//!
//! `mediating_server PROFILE_FILE [WORKERS]` begins with the root alone. A client writes its requests to standard input, one per
//! line: `open PATH PERMS`, or a change of the tree, such as `mkdir P`, `create P`, `rename OLD NEW` or `unlink P`. Each line is
//! answered by a line on standard output, which begins with the number of the request's line; answers come in the order in which
//! the workers get to them. What became of the file is reported on standard error.
//!
//! The definitions to believe are those in `specs/`, for contracts of private functions alone.
#![tactic(auto)]

mod answers;
mod desk;
mod fault;
mod publisher;
mod request;
mod server;
mod worker;

use crate::desk::Desk;
use crate::fault::ServerFault;
use crate::publisher::ProfileFile;
use crate::server::serve;
use std::io::{BufReader, Read};
use std::process::ExitCode;
use std::rt::Runtime;
use std::sync::Wait;
use std::thread::Threads;
use std::{env, io};
use trace_report::{Status, fail};
use trace_script::Stop;

/// The number of workers, if none is given.
const WORKERS: u32 = 4;

fn main(rt: HostRuntime) -> ExitCode {
    let status = match answer(&rt, rt.reader()) {
        Ok(()) => Status::Done,
        Err(fault) => fail(&mut rt.stderr(), fault, fault.status()),
    };
    ExitCode::from(status.code())
}

fn answer<R: Runtime + AllocGlobal + Threads + Wait + Sync, I: Read + Drop + Send>(
    rt: &R,
    input: I,
) -> Result<(), ServerFault> {
    let words = words(rt)?;
    let Some((path, workers)) = planned(&words) else {
        return Err(ServerFault::Usage);
    };
    let input = BufReader::new(rt.alloc(), input).map_err(Stop::from)?;
    let desk = Desk::new(input, io::writer(rt));
    serve(rt, ProfileFile::at(path), workers, &desk)
}

fn words<R: Runtime + AllocGlobal>(rt: &R) -> Result<Vec<String>, Stop> {
    Ok(env::args(rt)?.collect(rt.alloc())?)
}

/// The profile's file, and how many workers there are.
fn planned(words: &[String]) -> Option<(&str, u32)> {
    if words.len() < 2 || words.len() > 3 {
        return None;
    }
    let workers = match words.get(2) {
        Some(word) => word.as_str().parse().ok()?,
        None => WORKERS,
    };
    if workers == 0 {
        return None;
    }
    Some((words[1].as_str(), workers))
}
