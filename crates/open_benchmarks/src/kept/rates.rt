//! Sessions of both kinds, timed.
use super::files::{FILES, first_paths};
use crate::opens::{Opened, open_in_threads};
use crate::scene::{Scene, SessionKind};
use std::alloc::{AllocError, Global};
use std::io;
use std::rt::Clock;
use std::thread::Threads;

/// How many files are opened in turn.
#[derive(Clone, Copy)]
pub(crate) struct Mix {
    pub name: &'static str,
    pub files: u16,
}

// How many verdicts a session keeps.
const KEPT: u16 = 64;

/// The same file; as many in turn as a session keeps verdicts; one more, where the verdict that was used least recently is always
/// the next one to be looked up; and 500, of which hardly any is found again.
pub(crate) const MIXES: [Mix; 4] = [
    Mix {
        name: "one",
        files: 1,
    },
    Mix {
        name: "turns_64",
        files: KEPT,
    },
    Mix {
        name: "turns_65",
        files: KEPT + 1,
    },
    Mix {
        name: "turns_500",
        files: FILES,
    },
];

/// Opens in several threads, each by a session of its own.
#[derive(Clone, Copy)]
pub(crate) struct Side {
    pub mix: Mix,
    /// How many directories down the files are.
    pub depth: usize,
    pub threads: usize,
    pub kind: SessionKind,
    /// How many there are in each thread.
    pub opens: u64,
}

impl Side {
    /// How many there are in all threads.
    pub(crate) fn all_opens(&self) -> u64 {
        self.opens.saturating_mul(self.threads as u64)
    }
}

/// The opens of sessions that are made for them.
pub(crate) fn measure<R: Clock + Threads + Sync>(
    rt: &R,
    alloc: Global,
    scene: &mut Scene,
    side: &Side,
) -> io::Result<Opened> {
    let paths = first_paths(alloc, side.depth, side.mix.files)?;
    let lent = lent(alloc, &paths)?;
    let sessions = scene.sessions(alloc, side.kind, side.threads)?;
    open_in_threads(rt, sessions, &lent, side.opens)
}

// The paths, borrowed.
fn lent(alloc: Global, paths: &[Vec<u8>]) -> Result<Vec<&[u8]>, AllocError> {
    let mut lent = Vec::new(alloc);
    for path in paths {
        lent.push(path.as_slice())?;
    }
    Ok(lent)
}
