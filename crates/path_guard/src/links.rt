//! Hard links.
ghost use Rattle.std.specs.Prelude.{◌≡◌, ◌≢◌, IfOk, IfErr, OnOk};
ghost use Rattle.path_session.specs.Sessions.{IsSameSession, HasSeenMore};
ghost use Rattle.path_session.specs.AtHand.{IsLetIn};
ghost use Rattle.guarded_row.specs.Links.{IsAnswerOf, IsNoAnswerOf};

use crate::guard::Guard;
use guarded_row::Row;
use path_session::{LinkAnswer, Session, Unanswered};
use std::sync::Wait;

impl<M: Row> Guard<M> {
    /// Makes a hard link by a session that this guard gave, where its profile allows it (apparmor.d(5), "Link rules"; link(2)).
    /// It waits for the keeper's lock.
    pub fn link(
        &self,
        rt: &impl Wait,
        session: &mut Session,
        old: &[u8],
        new: &[u8],
    ) -> Result<LinkAnswer, Unanswered>
        requires { session.old.walk.table ≡ M.table }
        ensures same { IsSameSession session.old session.new × (session.new.kept_answers ≡ session.old.kept_answers) }
        ensures history { HasSeenMore session.old session.new }
        ensures meetings { session.new.meetings ≢ session.old.meetings }
        ensures policy_read { OnOk result (IsLetIn session.old session.new) }
        ensures ok { IfOk result (IsAnswerOf M.table session.new old.now new.now) }
        ensures err { IfErr result (IsNoAnswerOf M.table session.old session.new old.now new.now) }
    {
        self.row.link(rt, session, old, new)
    }
}
