//! The opens of sessions, in a thread each.
use names::{Errno, Permission, Perms, Verdict};
use path_session::{Answer, Session};
use std::io;
use std::rt::Clock;
use std::thread::{Threads, map_vec};
use std::time::{Duration, Instant};

/// The outcome of some opens.
#[derive(Clone, Copy)]
pub(crate) struct Tally {
    /// How many were allowed.
    pub allowed: u64,
    /// How many were refused because no entry had the name.
    pub missing: u64,
    /// How many were concurrent with a change.
    pub busy: u64,
    /// How many were answered otherwise.
    pub others: u64,
}

impl Tally {
    /// Of no opens.
    const NONE: Tally = Tally {
        allowed: 0,
        missing: 0,
        busy: 0,
        others: 0,
    };

    /// Of these opens and others.
    fn and(self, other: Tally) -> Tally {
        Tally {
            allowed: self.allowed.saturating_add(other.allowed),
            missing: self.missing.saturating_add(other.missing),
            busy: self.busy.saturating_add(other.busy),
            others: self.others.saturating_add(other.others),
        }
    }

    fn count(&mut self, answer: &Answer) {
        let count = match answer {
            Answer::Judged {
                verdict: Verdict::Allowed,
                ..
            } => &mut self.allowed,
            Answer::Failed {
                errno: Errno::ENOENT,
                ..
            } => &mut self.missing,
            Answer::Busy { .. } => &mut self.busy,
            _ => &mut self.others,
        };
        *count = count.saturating_add(1);
    }
}

/// How long the opens of all threads took, and their outcome.
#[derive(Clone, Copy)]
pub(crate) struct Opened {
    pub took: Duration,
    pub tally: Tally,
}

/// Opens the files of these paths in turn, `opens` times by each session, which has a thread of its own.
pub(crate) fn open_in_threads<R: Clock + Threads + Sync>(
    rt: &R,
    sessions: Vec<Session>,
    paths: &[&[u8]],
    opens: u64,
) -> io::Result<Opened> {
    let start = Instant::now(rt)?;
    let ended = map_vec(
        rt,
        sessions,
        &|session: Session| { open_by_turns(session, paths, opens) },
    )?;
    let took = start.elapsed(rt)?;
    let mut tally = Tally::NONE;
    for one in &ended {
        tally = tally.and(*one);
    }
    Ok(Opened { took, tally })
}

// Opens files in turn to read them, and returns the outcome. With no path nothing is opened.
fn open_by_turns(session: Session, paths: &[&[u8]], opens: u64) -> Tally {
    let mut session = session;
    let to_read = Perms::NONE.with(Permission::Read);
    let mut tally = Tally::NONE;
    let mut next = 0;
    for _ in 0..opens {
        let Some(path) = paths.get(next) else {
            return tally;
        };
        let answer = session.try_open(path, to_read);
        tally.count(&answer);
        next += 1;
        if next == paths.len() {
            next = 0;
        }
    }
    tally
}
