//! The work of a session's thread.
ghost use Rattle.std.specs.Prelude.{◌≡◌, IfOk};
ghost use Rattle.path_storm.specs.Logs.{IsOpenedBy};
ghost use Rattle.path_storm.specs.declared.setup.TheConstants.{PROFILE};

use crate::fault::StormFault;
use crate::gate::Gate;
use crate::log::SessionLog;
use crate::setup::{FILE, PROFILE};
use names::Perms;
use path_guard::{Guard, Row, Session};
use std::alloc::Global;
use std::marker::PhantomData;
use std::sync::Wait;
use std::thread::Promise;

/// A session of a guard that has not opened anything yet, with its number.
#[derive(Drop)]
pub(crate) struct Worker<M: Row> {
    session: Session,
    number: u32,
    of: PhantomData<M>,
    ghost ours: { session.walk.table ≡ M.table },
    ghost profile: { session.profile ≡ PROFILE.now },
    ghost entries: { session.reading.entries ≡ 0 },
    ghost refused: { session.reading.refused ≡ 0 },
}

impl<M: Row> Worker<M> {
    pub(crate) fn new(
        rt: &impl Wait,
        guard: &Guard<M>,
        number: u32,
    ) -> Result<Worker<M>, StormFault> {
        let session = guard.session(rt, PROFILE)?;
        Ok(Worker {
            session,
            number,
            of: PhantomData,
        })
    }

    /// Opens the file as often as promised, and calls the gate before and after each open. Returns the session and all answers.
    #[tactic(auto, using(crate::proofs::Opened::opened_none, crate::proofs::Opened::opened_more))]
    pub(crate) fn open_all<G: Gate>(
        self,
        rt: &impl Wait,
        alloc: Global,
        guard: &Guard<M>,
        gate: &G,
        promised: Opens,
    ) -> Result<SessionLog, StormFault>
        ensures { IfOk result (IsOpenedBy promised.ask promised.times) }
    {
        let Worker {
            mut session,
            number,
            of: _,
        } = self;
        let Opens { ask, times } = promised;
        let mut answers = Vec::with_capacity(alloc, times as usize)?;
        for call in 0..times {
            gate.before(number, call + 1);
            let answer = guard.open(rt, &mut session, FILE, ask);
            gate.after(number, call + 1);
            answers.push(answer)?;
        }
        Ok(SessionLog { session, answers })
    }
}

/// The promise that a thread which ends well opened the file this often, for these permissions.
#[derive(Clone, Copy)]
pub(crate) struct Opens {
    pub ask: Perms,
    pub times: u64,
}

impl Promise<Result<SessionLog, StormFault>> for Opens {
    ghost use Rattle.std.specs.Prelude.{IfOk};
    ghost use Rattle.path_storm.specs.Logs.{IsOpenedBy};

    ghost kept_by = { λ p r. IfOk r (IsOpenedBy p.ask p.times) };
}
