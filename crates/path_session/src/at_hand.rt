//! Opens and hard links when both the keeper and the publisher are held exclusively.
ghost use Rattle.std.specs.Prelude.{◌≡◌, ◌≢◌, ◌⊎◌, [], IfOk, IfErr, IsOk, OnOk, OnErr};
ghost use mathlib.Core.List.{IsPrefix};
ghost use Rattle.dentry_cache.specs.Walks.{met_at};
ghost use Rattle.mediation.specs.Answers.{answered, name_opened, link_answered, name_linked};
ghost use Rattle.mediation.specs.History.{open_answer, link_answer, after_link};
ghost use Rattle.path_session.specs.Sessions.{IsSameSession, counted};
ghost use Rattle.path_session.specs.AtHand.{IsLetInWith, IsNoLinkWith, IsUntouchedUnlessMade};
ghost use Rattle.profile_registry.specs.Views.{IsUnansweredWith};
ghost use Rattle.path_session.specs.KeeperStates.{history_of};

use crate::session::Session;
use crate::unanswered::Unanswered;
use dentry_cache::Keeper;
use mediation::{Answer, LinkAnswer, link_by};
use names::{NoMemory, Perms};
use profile_registry::{NoEntry, Publisher};

impl Session {
    /// Opens a file as [`open_with`](Session::open_with) does, using all that the publisher has published. The session's reader
    /// is one of this publisher: what it learned last begins what is published. There is no entry only where the reader isn't
    /// answered, which is counted: then the session is as it was, but for what it learned of tree and policy.
    pub fn open_with_both(
        &mut self,
        keeper: &mut Keeper,
        publisher: &mut Publisher,
        path: &[u8],
        ask: Perms,
    ) -> Result<Answer, NoEntry>
        requires row { self.old.walk.table ≡ keeper.old.table }
        requires policy { IsPrefix self.old.reading.learned publisher.old.published }
        ensures same { IsSameSession self.old self.new × (keeper.new ≡ keeper.old) × (publisher.new ≡ publisher.old) }
        ensures met { IsPrefix self.old.walk.view.seen keeper.old.history × (self.new.walk.view ≡ met_at keeper.old.history) }
        ensures meetings { self.new.meetings ≢ self.old.meetings }
        ensures policy_seen { OnOk result (self.new.reading.seen ≡ publisher.old.published) }
        ensures learned { IsPrefix self.new.reading.learned publisher.old.published }
        ensures answer { IfOk result (λ answer. answered self.new.judged answer
            ≡ open_answer (history_of keeper.old publisher.old.published) self.old.profile path.now ask) }
        ensures name { OnOk result (self.new.judged
            ≡ name_opened (open_answer (history_of keeper.old publisher.old.published) self.old.profile path.now ask)) }
        ensures kept { (self.new.kept_answers ≡ self.old.kept_answers)
            ⊎ (IsOk result × (self.new.kept_answers ≡ counted self.old.kept_answers)) }
        ensures let_in { OnOk result (IsLetInWith publisher.old.published self.old self.new) }
        ensures err { OnErr result ((self.new.judged ≡ [])
            × IsUnansweredWith publisher.old.published self.old.reading self.new.reading self.old.profile) }
    {
        self.name_length = 0;
        self.meet(keeper);
        let policy_version = self.known.read_published(publisher)?;
        let (answer, name_length) = self.known.answer_here(
            keeper,
            path,
            ask,
            policy_version,
            &mut self.scratch,
            &mut self.name,
        );
        self.name_length = name_length;
        Ok(answer)
    }

    /// Makes a hard link as [`link_with`](Session::link_with) does, using all that the publisher has published. The session's
    /// reader is one of this publisher, as in [`open_with_both`](Session::open_with_both). There is no entry only where the reader
    /// isn't answered, which is counted, and memory is refused only for a link that would be made.
    pub fn link_with_both(
        &mut self,
        keeper: &mut Keeper,
        publisher: &mut Publisher,
        old: &[u8],
        new: &[u8],
    ) -> Result<LinkAnswer, Unanswered>
        requires { IsPrefix self.old.reading.learned publisher.old.published }
        ensures same { IsSameSession self.old self.new × (self.new.walk ≡ self.old.walk) × (self.new.meetings ≡ self.old.meetings)
            × (self.new.kept_answers ≡ self.old.kept_answers) × (keeper.new.table ≡ keeper.old.table) × (publisher.new ≡ publisher.old) }
        ensures kept { IfOk result (λ answer. IsUntouchedUnlessMade answer keeper.old keeper.new) }
        ensures policy_seen { OnOk result (self.new.reading.seen ≡ publisher.old.published) }
        ensures learned { IsPrefix self.new.reading.learned publisher.old.published }
        ensures let_in { OnOk result (IsLetInWith publisher.old.published self.old self.new) }
        ensures ok { IfOk result (λ answer. link_answered self.new.judged answer
            ≡ link_answer (history_of keeper.old publisher.old.published) self.old.profile old.now new.now) }
        ensures name { OnOk result (self.new.judged
            ≡ name_linked (link_answer (history_of keeper.old publisher.old.published) self.old.profile old.now new.now)) }
        ensures history { OnOk result (history_of keeper.new publisher.old.published
            ≡ after_link (history_of keeper.old publisher.old.published) old.now new.now
            (link_answer (history_of keeper.old publisher.old.published) self.old.profile old.now new.now)) }
        ensures err { IfErr result (λ why. (keeper.new ≡ keeper.old) × (self.new.judged ≡ [])
            × IsNoLinkWith publisher.old.published self.old self.new
            (link_answer (history_of keeper.old publisher.old.published) self.old.profile old.now new.now) why) }
    {
        self.name_length = 0;
        let Ok(policy_version) = self.known.read_published(publisher) else {
            return Err(Unanswered::NoEntry);
        };
        let Some(profile) = self.known.published() else {
            return Ok(LinkAnswer::NoProfile { policy_version });
        };
        match link_by(
            keeper,
            profile,
            policy_version,
            old,
            new,
            &mut self.scratch,
            &mut self.name,
        ) {
            Ok((answer, name_length)) => {
                self.name_length = name_length;
                Ok(answer)
            }
            Err(NoMemory) => Err(Unanswered::NoMemory),
        }
    }
}
