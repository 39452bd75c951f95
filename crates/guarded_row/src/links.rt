//! Hard links.
ghost use Rattle.std.specs.Prelude.{◌≡◌, ◌≢◌, IfOk, IfErr, OnOk};
ghost use Rattle.path_session.specs.Sessions.{IsSameSession, HasSeenMore};
ghost use Rattle.path_session.specs.AtHand.{IsLetIn};
ghost use Rattle.guarded_row.specs.Links.{IsAnswerOf, IsNoAnswerOf};

use crate::guarded::GuardedRow;
use crate::row::Row;
use path_session::{LinkAnswer, Session, Unanswered};
use std::sync::{MutexGuard, Wait};

impl<M: Row> GuardedRow<M> {
    /// Makes a hard link by a session of this row, where its profile allows it (apparmor.d(5), "Link rules"; link(2)). It waits
    /// for the lock.
    pub fn link(
        &self,
        rt: &impl Wait,
        session: &mut Session,
        old: &[u8],
        new: &[u8],
    ) -> Result<LinkAnswer, Unanswered>
        requires { session.old.walk.table ≡ M.table }
        ensures same { IsSameSession session.old session.new × (session.new.kept_answers ≡ session.old.kept_answers) }
        ensures history { HasSeenMore session.old session.new }
        ensures meetings { session.new.meetings ≢ session.old.meetings }
        ensures policy_read { OnOk result (IsLetIn session.old session.new) }
        ensures ok { IfOk result (IsAnswerOf M.table session.new old.now new.now) }
        ensures err { IfErr result (IsNoAnswerOf M.table session.old session.new old.now new.now) }
    {
        let mut keeper = self.lock(rt);
        let answer = keeper.link(session, old, new);
        MutexGuard::unlock(keeper);
        answer
    }
}
