//! A publisher in one thread, and readers in two others.
use crate::registry::fixtures::{Found, look, profile_a, profile_b};
use matcher::AnyProfile;
use names::NoMemory;
use profile_registry::{PolicyReader, Publisher};
use std::alloc::Global;
use std::process::Abort;
use std::sync::{Arc, Wait};
use std::test::Fail;
use std::thread::{Threads, join};
use storm_parts::new_publisher;

// The last version. Each round of three changes replaces, replaces and removes.
const LAST: u64 = 3 * ROUNDS;

const ROUNDS: u64 = 200;

// A reader stops after this many looks, which take some seconds: a run of the publisher takes some milliseconds.
const LOOKS: u64 = 1 << 27;

// What is published under the name after the first `version` changes.
fn published_after(version: u64) -> Found {
    match version % 3 {
        1 => Found::A,
        2 => Found::B,
        _ => Found::Nothing,
    }
}

// Stages the change with this number.
fn stage(
    publisher: &mut Publisher,
    change: u64,
    a: &Arc<AnyProfile>,
    b: &Arc<AnyProfile>,
) -> Result<(), NoMemory> {
    if publisher.changes() >= 1 << 59 {
        return Err(NoMemory);
    }
    let profile = match published_after(change) {
        Found::A => a,
        Found::B => b,
        _ => return publisher.remove(b"p"),
    };
    match Arc::try_clone(profile) {
        Ok(share) => publisher.replace(b"p", share),
        Err(_) => Err(NoMemory),
    }
}

// Makes all changes, some of them several at a time. Returns whether each version was the expected one.
fn publish_all<R: Wait>(
    rt: &R,
    publisher: &mut Publisher,
    a: &Arc<AnyProfile>,
    b: &Arc<AnyProfile>,
) -> bool {
    for change in 1..=LAST {
        if stage(publisher, change, a, b).is_err() {
            return false;
        }
        if change % 4 != 2 && publisher.publish(rt) != Ok(change) {
            return false;
        }
    }
    publisher.publish(rt) == Ok(LAST)
}

// Reads until the last version is seen. Returns whether each pair was what is published after `version` changes, and no version
// fell.
fn read_all(reader: &mut PolicyReader) -> bool {
    let mut before = 0;
    for _ in 0..LOOKS {
        let Ok((profile, version)) = look(reader, b"p") else {
            return false;
        };
        if profile != published_after(version) || version < before {
            return false;
        }
        if version == LAST {
            return true;
        }
        before = version;
    }
    false
}

// What a reader returns about its pairs, and what the publisher, running concurrently, returns about its versions.
fn read_beside<R: Threads + Wait + Sync>(
    rt: &R,
    reader: &mut PolicyReader,
    publisher: &mut Publisher,
    a: &Arc<AnyProfile>,
    b: &Arc<AnyProfile>,
) -> (bool, bool) {
    join(rt, || read_all(reader), || publish_all(rt, publisher, a, b))
}

fn run<R: Abort + Threads + Wait + Sync>(
    rt: &R,
    alloc: Global,
    publisher: &mut Publisher,
) -> Result<(), Fail> {
    let (a, b) = (profile_a(alloc)?, profile_b(alloc)?);
    let (mut one, mut other) = (publisher.reader()?, publisher.reader()?);
    let (one, (other, published)) = join(
        rt,
        || read_all(&mut one),
        || read_beside(rt, &mut other, publisher, &a, &b),
    );
    assert!(rt; published, "a version that wasn't due");
    assert!(rt;
        one && other,
        "a pair that was never published, or a version that fell"
    );
    Ok(())
}

#[test]
fn each_pair_was_published(rt: HostRuntime) -> Result<(), Fail> {
    let mut publisher = new_publisher(rt.alloc())?;
    let outcome = run(&rt, rt.alloc(), &mut publisher);
    publisher.close(&rt);
    outcome
}

// Lends the publisher to another thread.
fn told_there<R: Threads>(rt: &R, publisher: &mut Publisher) -> bool {
    join(rt, || publisher.tell().is_ok(), || ()).0
}

#[test]
fn a_publisher_is_lent_to_another_thread(rt: HostRuntime) -> Result<(), Fail> {
    let mut publisher = new_publisher(rt.alloc())?;
    let told = told_there(&rt, &mut publisher);
    publisher.close(&rt);
    assert!(rt; told);
    Ok(())
}
