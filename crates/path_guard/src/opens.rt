//! Opens, at once where that can be.
ghost use Rattle.justification.specs.Justified.{Justified};
ghost use Rattle.mediation.specs.Deeds.{policy_after};
ghost use Rattle.path_session.specs.Sessions.{IsSameSession, HasSeenMore, HasVersions, IsNameJudged, IsByPublished, CountsRefusals};
ghost use Rattle.guarded_row.specs.Opens.{IsNotBusy, HasAsked, HasLooked, IsTriedFirst};
ghost use Rattle.std.specs.Prelude.{◌≡◌};

use crate::guard::Guard;
use guarded_row::Row;
use names::Perms;
use path_session::{Answer, Session};
use std::sync::Wait;

impl<M: Row> Guard<M> {
    /// Opens a file by a session that this guard gave. It is tried three times at most concurrently with the keeper, again only
    /// where a change came between; after that it waits for the keeper's lock, so that it is never `Busy`.
    ///
    /// The answer is right for the changes of tree and policy that the session has seen by then (open(2), apparmor.d(5)).
    pub fn open(&self, rt: &impl Wait, session: &mut Session, path: &[u8], ask: Perms) -> Answer
        requires { session.old.walk.table ≡ M.table }
        ensures same { IsSameSession session.old session.new }
        ensures history { HasSeenMore session.old session.new }
        ensures policy_read { HasAsked session.old session.new result }
        ensures tree_read { HasLooked session.old session.new result }
        ensures tries { IsTriedFirst session.old session.new result }
        ensures versions { HasVersions session.new result }
        ensures justified { Justified session.old.profile path.now ask session.new.walk.view.seen session.new.reading.seen result }
        ensures name { IsNameJudged session.new.walk.view.seen path.now ask result session.new.judged }
        ensures published { IsByPublished (policy_after session.new.reading.seen session.old.profile) result }
        ensures refused { CountsRefusals session.old session.new result }
        ensures not_busy { IsNotBusy result }
    {
        self.row.open(rt, session, path, ask)
    }
}
