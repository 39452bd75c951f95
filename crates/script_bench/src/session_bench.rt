//! A bench that is a keeper, a publisher and one session.
ghost use Rattle.std.specs.Prelude.{◌≡◌, ◌≤◌, [], IfOk};
ghost use Rattle.mediation.specs.History.{new_history};
ghost use Rattle.path_session.specs.KeeperStates.{history_of};

use dentry_cache::Keeper;
use names::NoMemory;
use path_session::Session;
use profile_registry::Publisher;
use std::alloc::Global;
use std::marker::Model;
use std::sync::Wait;
use tree_row::MOST_ENTRIES;

/// A keeper of the row of words that threads may share, a publisher, and a session that uses both.
///
/// It is not `Drop`: end it by [`close`](SessionBench::close).
pub struct SessionBench<'a, R: Wait> {
    // A publication uses this to wait for readers.
    pub(crate) rt: &'a R,
    pub(crate) alloc: Global,
    pub(crate) keeper: Keeper,
    pub(crate) publisher: Publisher,
    pub(crate) session: Session,
    // Whether the last open or link was answered.
    pub(crate) has_answered: bool,
}

impl<'a, R: Wait> Model for SessionBench<'a, R> {
    ghost use Rattle.std.specs.Prelude.{◌≡◌};
    ghost use mathlib.Core.List.{IsPrefix};
    ghost use Rattle.script_bench.specs.Benches.{Benching};

    ghost Value = { Benching };

    ghost view = { λ b. record { keeper = b.keeper; publisher = b.publisher; session = b.session; has_answered = b.has_answered } };

    ghost invariant = { λ b. (b.session.walk.table ≡ b.keeper.table) × IsPrefix b.session.reading.learned b.publisher.published };
}

impl<'a, R: Wait> SessionBench<'a, R> {
    /// The root alone, with room for `capacity` entries, and no profile.
    pub fn new(rt: &'a R, alloc: Global, capacity: usize) -> Result<SessionBench<'a, R>, NoMemory>
        requires { capacity ≤ MOST_ENTRIES }
        ensures { IfOk result (λ bench. history_of bench.keeper bench.publisher.published ≡ new_history capacity) }
    {
        let mut keeper = Keeper::new(alloc, capacity)?;
        let mut publisher = Publisher::new(alloc)?;
        match first_session(alloc, &mut keeper, &mut publisher) {
            Ok(session) => Ok(SessionBench {
                rt,
                alloc,
                keeper,
                publisher,
                session,
                has_answered: false,
            }),
            Err(NoMemory) => {
                publisher.close(rt);
                Err(NoMemory)
            }
        }
    }

    /// Ends the bench, and its publisher with it.
    pub fn close(self) {
        let SessionBench {
            rt,
            alloc: _,
            keeper: _keeper,
            publisher,
            session: _session,
            has_answered: _,
        } = self;
        publisher.close(rt);
    }
}

/// A session that uses both, which has selected no profile's name yet. There are free places for it, so only memory can be lacking.
fn first_session(
    alloc: Global,
    keeper: &mut Keeper,
    publisher: &mut Publisher,
) -> Result<Session, NoMemory>
    ensures same { (keeper.new ≡ keeper.old) × (publisher.new ≡ publisher.old) }
    ensures row { IfOk result (λ session. session.walk.table ≡ keeper.old.table) }
    ensures policy { IfOk result (λ session. session.reading.learned ≡ publisher.old.published) }
{
    let Ok(walker) = keeper.walker() else {
        return Err(NoMemory);
    };
    let Ok(reader) = publisher.reader() else {
        return Err(NoMemory);
    };
    match Session::new(alloc, walker, reader, b"") {
        Ok(session) => Ok(session),
        Err((NoMemory, _walker, _reader)) => Err(NoMemory),
    }
}
