//! The work of a worker's thread.
ghost use Rattle.std.specs.Prelude.{◌≡◌, IfOk};
ghost use Rattle.mediating_server.specs.Answers.{TellsRightly};

use crate::answers::{numbered, open_line};
use crate::desk::Desk;
use crate::publisher::PROFILE;
use crate::request::{Request, parse};
use names::Perms;
use path_guard::{Guard, Row, Session, SessionFault};
use std::alloc::Global;
use std::io::{BufRead, Write};
use std::sync::Wait;
use trace_script::{ChangeWords, Stop, change_of, errno_line, version_line};

/// A session of a guard, which answers requests.
#[derive(Drop)]
pub(crate) struct Worker<'a, M: Row> {
    alloc: Global,
    guard: &'a Guard<M>,
    session: Session,
    ghost ours: { session.walk.table ≡ M.table },
}

impl<'a, M: Row> Worker<'a, M> {
    pub(crate) fn new(
        rt: &impl Wait,
        alloc: Global,
        guard: &'a Guard<M>,
    ) -> Result<Worker<'a, M>, SessionFault> {
        let session = guard.session(rt, PROFILE)?;
        Ok(Worker {
            alloc,
            guard,
            session,
        })
    }

    /// Takes requests, and answers each, until no more are left.
    pub(crate) fn serve<I: BufRead, O: Write, R: Wait>(
        self,
        rt: &R,
        desk: &Desk<I, O>,
    ) -> Result<(), Stop> {
        let mut worker = self;
        let mut line = Vec::new(worker.alloc);
        for _ in rt.forever() {
            let Some(number) = desk.take(rt, &mut line)? else {
                return Ok(());
            };
            let answer = worker.answer(rt, &line)?;
            desk.give(rt, &numbered(worker.alloc, number, &answer)?)?;
        }
        unreachable!()
    }

    fn answer(&mut self, rt: &impl Wait, line: &[u8]) -> Result<Vec<u8>, Stop> {
        match parse(line) {
            Some(Request::Open { path, ask }) => self.open(rt, path, ask),
            Some(Request::Change(words)) => self.change(rt, words),
            None => Ok(Vec::from_slice(self.alloc, b"not a request\n")?),
        }
    }

    fn open(&mut self, rt: &impl Wait, path: &[u8], ask: Perms) -> Result<Vec<u8>, Stop>
        ensures { IfOk result (λ line. TellsRightly self.new.session path.now ask line.items) }
    {
        let answer = self.guard.open(rt, &mut self.session, path, ask);
        open_line(self.alloc, &answer, self.session.name())
    }

    fn change(&self, rt: &impl Wait, words: ChangeWords<'_>) -> Result<Vec<u8>, Stop> {
        let made = match change_of(words) {
            Ok(change) => self.guard.change(rt, &change),
            Err(errno) => Err(errno),
        };
        match made {
            Ok(version) => version_line(self.alloc, version),
            Err(errno) => errno_line(self.alloc, errno),
        }
    }
}
