//! Many readers concurrently with one publisher.
use super::plan::Plan;
use matcher::AnyProfile;
use names::NoMemory;
use open_benchmarks::{compiled, stage, stage_removal};
use profile_registry::{PolicyReader, Publisher};
use std::alloc::Global;
use std::sync::{Arc, Wait};
use std::thread::{Threads, spawn};

// A reader gives up after this many looks, of which a run needs fewer.
const LOOKS: u64 = 1 << 32;

/// What is published under the one name.
#[derive(Clone, Copy, PartialEq, Eq)]
enum Stands {
    Nothing,
    First,
    Second,
    Another,
}

// What is published after `version` changes: they replace, replace and remove in turn.
fn published_after(version: u64) -> Stands {
    match version % 3 {
        1 => Stands::First,
        2 => Stands::Second,
        _ => Stands::Nothing,
    }
}

/// Makes the changes concurrently with the readers, and returns whether each pair that was read was what is published at its
/// version, no reader's versions fell, and each saw the last.
pub(crate) fn storm<R: Threads + Wait>(
    rt: &R,
    alloc: Global,
    plan: &Plan,
    publisher: &mut Publisher,
) -> Result<bool, NoMemory> {
    let (Some(first), Some(second)) = (
        compiled(alloc, b"profile first {\n  /a r,\n}\n"),
        compiled(alloc, b"profile second {\n  /b rw,\n}\n"),
    ) else {
        return Err(NoMemory);
    };
    let last = plan.changes;
    let mut readers = Vec::new(alloc);
    for _ in 0..plan.readers {
        let Ok(reader) = publisher.reader() else {
            return Err(NoMemory);
        };
        let Ok(thread) = spawn(rt, move || read_all(reader, last)) else {
            return Err(NoMemory);
        };
        if readers.push(thread).is_err() {
            return Err(NoMemory);
        }
    }
    let mut right = publish_all(rt, publisher, &first, &second, last);
    for reader in readers {
        if !reader.join(rt) {
            right = false;
        }
    }
    Ok(right)
}

// Makes the changes, one or two at a time, and returns whether each version was the one that is due.
fn publish_all<R: Wait>(
    rt: &R,
    publisher: &mut Publisher,
    first: &Arc<AnyProfile>,
    second: &Arc<AnyProfile>,
    last: u64,
) -> bool {
    for k in 0..last {
        let change = k + 1;
        let staged = match published_after(change) {
            Stands::First => stage(publisher, b"name", first),
            Stands::Second => stage(publisher, b"name", second),
            _ => stage_removal(publisher, b"name"),
        };
        if staged.is_err() {
            return false;
        }
        if (change % 4 != 1 || change == last) && publisher.publish(rt) != Ok(change) {
            return false;
        }
    }
    true
}

// Reads until the last version is seen.
fn read_all(reader: PolicyReader, last: u64) -> bool {
    let mut reader = reader;
    let mut before = 0;
    for _ in 0..LOOKS {
        let Ok((profile, version)) = reader.get(b"name") else {
            return false;
        };
        let stands = match profile {
            Some(profile) => which(&profile),
            None => Stands::Nothing,
        };
        if stands != published_after(version) || version < before {
            return false;
        }
        if version == last {
            return true;
        }
        before = version;
    }
    false
}

fn which(profile: &AnyProfile) -> Stands {
    match profile {
        AnyProfile::Compiled(compiled) => match compiled.profile().name() {
            b"first" => Stands::First,
            b"second" => Stands::Second,
            _ => Stands::Another,
        },
        AnyProfile::Loaded(_) => Stands::Another,
    }
}
