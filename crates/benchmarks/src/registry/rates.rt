//! Reads, timed.
use names::NoMemory;
use open_benchmarks::{compiled, stage};
use profile_registry::{PolicyReader, Publisher};
use std::alloc::{AllocError, Global};
use std::io;
use std::rt::Clock;
use std::sync::Wait;
use std::thread::{Threads, map_vec};
use std::time::Instant;

// The number of names that have a profile.
const NAMES: u8 = 64;

/// Publishes a profile of its own under each of 64 names.
pub(crate) fn publish_names<R: Wait>(
    rt: &R,
    alloc: Global,
    publisher: &mut Publisher,
) -> Result<Vec<Vec<u8>>, NoMemory> {
    let mut names = Vec::new(alloc);
    for k in 0..NAMES {
        let Some(profile) = compiled(alloc, b"profile daemon {\n  /srv/** r,\n}\n") else {
            return Err(NoMemory);
        };
        let text = [
            b'd',
            b'a',
            b'e',
            b'm',
            b'o',
            b'n',
            b'_',
            b'0' + k / 10,
            b'0' + k % 10,
        ];
        stage(publisher, &text, &profile)?;
        let Ok(name) = Vec::from_slice(alloc, &text) else {
            return Err(NoMemory);
        };
        if names.push(name).is_err() {
            return Err(NoMemory);
        }
    }
    publisher.publish(rt)?;
    Ok(names)
}

/// Which names a thread reads.
#[derive(Clone, Copy)]
pub(crate) enum Share {
    /// All of them, and so does each other thread.
    All,
    /// Sixteen that no other thread reads.
    Own,
}

/// One thread's work: it reads the names from `first` up to `end`, again and again, and starts at `start`.
#[derive(Drop)]
struct Work {
    reader: PolicyReader,
    first: usize,
    end: usize,
    start: usize,
}

/// How many reads a second `threads` threads make together, with `reads` reads in each.
pub(crate) fn rate<R: Clock + Threads + Sync>(
    rt: &R,
    alloc: Global,
    publisher: &mut Publisher,
    names: &[Vec<u8>],
    threads: usize,
    share: Share,
    reads: u64,
) -> io::Result<u64> {
    let mut all = Vec::new(alloc);
    for k in 0..threads {
        let Ok(reader) = publisher.reader() else {
            return Err(AllocError.into());
        };
        let start = k % 1024 * 16;
        let (first, end) = match share {
            Share::All => (0, names.len()),
            Share::Own => (start, start + 16),
        };
        all.push(Work {
            reader,
            first,
            end,
            start,
        })?;
    }
    let start = Instant::now(rt)?;
    let found = map_vec(rt, all, &|work: Work| read_names(work, names, reads))?;
    let nanoseconds = start.elapsed(rt)?.as_nanos();
    let mut total: u64 = 0;
    for found in &found {
        total = total.saturating_add(*found);
    }
    Ok(per_second(total, nanoseconds))
}

fn per_second(count: u64, nanoseconds: u128) -> u64 {
    if nanoseconds == 0 {
        return 0;
    }
    let rate = count as u128 * 1_000_000_000 / nanoseconds;
    u64::try_from(rate).unwrap_or(u64::MAX)
}

// Reads each of its names in turn, and returns how many profiles were found.
fn read_names(work: Work, names: &[Vec<u8>], reads: u64) -> u64 {
    let Work {
        mut reader,
        first,
        end,
        start,
    } = work;
    let mut found: u64 = 0;
    let mut next = start;
    for _ in 0..reads {
        if next >= end {
            next = first;
        }
        let Some(name) = names.get(next) else {
            return 0;
        };
        if let Ok((Some(_), _)) = reader.get(name.as_slice()) {
            found = found.saturating_add(1);
        }
        next += 1;
    }
    found
}
