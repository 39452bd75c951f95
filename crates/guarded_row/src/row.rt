//! The keeper of one row, which its type names.
ghost use Rattle.std.specs.Prelude.{◌≡◌, ◌≢◌, [], IfOk, IfErr, OnOk, length};
ghost use Rattle.atomic_table.specs.Seated.{TableId};
ghost use Rattle.dentry_cache.specs.Models.{Makes, Hinders};
ghost use Rattle.justification.specs.Justified.{Justified};
ghost use Rattle.mediation.specs.Deeds.{policy_after};
ghost use Rattle.row_rule.specs.Steps.{newcomer};
ghost use Rattle.path_session.specs.Sessions.{IsSameSession, HasSeenMore, HasReadPolicy, HasVersions, IsNameJudged};
ghost use Rattle.path_session.specs.Sessions.{IsByPublished, CountsRefusals};
ghost use Rattle.path_session.specs.AtHand.{IsLetIn};
ghost use Rattle.guarded_row.specs.Opens.{IsNotBusy};
ghost use Rattle.guarded_row.specs.Links.{IsAnswerOf, IsNoAnswerOf};

use dentry_cache::{Keeper, NoSeat, Walker};
use directory_tree::Change;
use names::{Errno, Perms};
use path_session::{Answer, LinkAnswer, Session, Unanswered};
use std::marker::{Brand, PhantomData};

/// Which row it is. Code that is generic in it speaks of one row, whichever that is; the code that makes the keeper picks it, by `Brand`.
pub trait Row {
    ghost table: { TableId };
}

impl Row for Brand {
    ghost table = { record { words = 0; slots = 0; views_name = 0; atom = 0; block = 0; offset = 0; slot_names = [] } };
}

/// The keeper of that row: so it is known under its lock, too.
#[derive(Drop)]
pub struct RowKeeper<M: Row> {
    keeper: Keeper,
    of: PhantomData<M>,
    ghost ours: { keeper.table ≡ M.table },
}

impl<M: Row> RowKeeper<M> {
    /// The keeper of the row that `M` names.
    pub(crate) fn new(keeper: Keeper) -> RowKeeper<M>
        requires { keeper.table ≡ M.table }
    {
        RowKeeper {
            keeper,
            of: PhantomData,
        }
    }

    /// Makes a change of the tree, and returns the version that it makes, or why not; then nothing was changed.
    pub(crate) fn change(&mut self, change: &Change<'_>) -> Result<u64, Errno>
        ensures ok { IfOk result (λ version. Makes self.old.keeper change.now self.new.keeper
            × (version ≡ length self.new.keeper.history)) }
        ensures same { IfErr result (λ _. self.new.keeper ≡ self.old.keeper) }
        ensures err { IfErr result (Hinders self.old.keeper change.now) }
    {
        self.keeper.apply(change)
    }

    /// A walker of the row, which may go to another thread.
    pub(crate) fn walker(&mut self) -> Result<Walker, NoSeat>
        ensures { IfOk result (λ walker. (walker.table ≡ M.table) × (walker.view ≡ newcomer)) }
    {
        self.keeper.walker()
    }

    /// Opens a file by a session of this row.
    pub(crate) fn open(&mut self, session: &mut Session, path: &[u8], ask: Perms) -> Answer
        requires { session.old.walk.table ≡ M.table }
        ensures same { IsSameSession session.old session.new }
        ensures history { HasSeenMore session.old session.new }
        ensures policy_read { HasReadPolicy session.old session.new result }
        ensures meetings { session.new.meetings ≢ session.old.meetings }
        ensures versions { HasVersions session.new result }
        ensures justified { Justified session.old.profile path.now ask session.new.walk.view.seen session.new.reading.seen result }
        ensures name { IsNameJudged session.new.walk.view.seen path.now ask result session.new.judged }
        ensures published { IsByPublished (policy_after session.new.reading.seen session.old.profile) result }
        ensures refused { CountsRefusals session.old session.new result }
        ensures not_busy { IsNotBusy result }
    {
        session.open_with(&mut self.keeper, path, ask)
    }

    /// Makes a hard link by a session of this row, which has then seen all changes before it.
    pub(crate) fn link(
        &mut self,
        session: &mut Session,
        old: &[u8],
        new: &[u8],
    ) -> Result<LinkAnswer, Unanswered>
        requires { session.old.walk.table ≡ M.table }
        ensures same { IsSameSession session.old session.new × (session.new.kept_answers ≡ session.old.kept_answers) }
        ensures history { HasSeenMore session.old session.new }
        ensures meetings { session.new.meetings ≢ session.old.meetings }
        ensures policy_read { OnOk result (IsLetIn session.old session.new) }
        ensures ok { IfOk result (IsAnswerOf M.table session.new old.now new.now) }
        ensures err { IfErr result (IsNoAnswerOf M.table session.old session.new old.now new.now) }
    {
        session.meet(&mut self.keeper);
        session.link_with(&mut self.keeper, old, new)
    }
}
