//! Sessions in several threads, timed.
use super::changes::{publish_until, rename_until};
use super::routes::Route;
use crate::opens::{Opened, open_in_threads};
use crate::scene::{Scene, SessionKind};
use crate::tree::{ASIDE, AWAY};
use path_session::Session;
use std::alloc::Global;
use std::io;
use std::rt::Clock;
use std::sync::Wait;
use std::sync::atomic::{AtomicBool, Ordering};
use std::thread::{Threads, join};
use std::time::Duration;

/// What is changed all the time meanwhile.
#[derive(Clone, Copy, PartialEq, Eq)]
pub(crate) enum Beside {
    Nothing,
    /// The name of a directory that the file isn't below.
    OtherName,
    /// The name of the file's directory.
    OwnName,
    Profile,
}

/// Each of them.
pub(crate) const BESIDES: [Beside; 4] = [
    Beside::Nothing,
    Beside::OtherName,
    Beside::OwnName,
    Beside::Profile,
];

impl Beside {
    pub(crate) fn name(self) -> &'static str {
        match self {
            Beside::Nothing => "nothing",
            Beside::OtherName => "other_name",
            Beside::OwnName => "own_name",
            Beside::Profile => "profile",
        }
    }
}

/// Opens of one file in several threads, each by a session of its own.
#[derive(Clone, Copy)]
pub(crate) struct Side {
    pub route: Route,
    pub beside: Beside,
    pub kind: SessionKind,
    pub threads: usize,
    /// How many there are in each thread.
    pub opens: u64,
    pub rest: Duration,
}

/// The opens of all threads, and how many changes were made meanwhile.
#[derive(Clone, Copy)]
pub(crate) struct Rate {
    pub opened: Opened,
    pub changes: u64,
}

/// The rate of the sessions; none if a change is refused.
pub(crate) fn measure<R: Clock + Threads + Wait + Sync>(
    rt: &R,
    alloc: Global,
    scene: &mut Scene,
    side: &Side,
) -> io::Result<Option<Rate>> {
    let sessions = scene.sessions(alloc, side.kind, side.threads)?;
    let done = AtomicBool::new(false);
    let (opened, changes) = open_beside(rt, scene, sessions, side, &done);
    let (opened, Some(changes)) = (opened?, changes) else {
        return Ok(None);
    };
    Ok(Some(Rate { opened, changes }))
}

// Opens in all threads concurrently with the changes.
fn open_beside<R: Clock + Threads + Wait + Sync>(
    rt: &R,
    scene: &mut Scene,
    sessions: Vec<Session>,
    side: &Side,
    done: &AtomicBool,
) -> (io::Result<Opened>, Option<u64>) {
    let Scene { keeper, policy } = scene;
    let Route {
        file,
        directory,
        renamed,
        ..
    } = side.route;
    let Side { opens, rest, .. } = *side;
    match side.beside {
        Beside::Nothing => (open_all(rt, sessions, file, opens, done), Some(0)),
        Beside::OtherName => join(
            rt,
            || open_all(rt, sessions, file, opens, done),
            || rename_until(rt, keeper, ASIDE, AWAY, rest, done),
        ),
        Beside::OwnName => join(
            rt,
            || open_all(rt, sessions, file, opens, done),
            || rename_until(rt, keeper, directory, renamed, rest, done),
        ),
        Beside::Profile => join(
            rt,
            || open_all(rt, sessions, file, opens, done),
            || publish_until(rt, policy, rest, done),
        ),
    }
}

// Opens in all threads, and then sets `done`.
fn open_all<R: Clock + Threads + Sync>(
    rt: &R,
    sessions: Vec<Session>,
    file: &[u8],
    opens: u64,
    done: &AtomicBool,
) -> io::Result<Opened> {
    let opened = open_in_threads(rt, sessions, &[file], opens);
    done.store(true, Ordering::SeqCst);
    opened
}
