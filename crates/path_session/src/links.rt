//! Hard links, judged and made when the keeper is held exclusively.
ghost use Rattle.std.specs.Prelude.{◌≡◌, [], IfOk, IfErr, OnOk};
ghost use mathlib.Core.List.{IsPrefix};
ghost use Rattle.mediation.specs.Answers.{link_answered, name_linked};
ghost use Rattle.mediation.specs.History.{link_answer, after_link};
ghost use Rattle.path_session.specs.Sessions.{IsSameSession};
ghost use Rattle.path_session.specs.AtHand.{IsLetIn, IsNoLink, IsUntouchedUnlessMade};
ghost use Rattle.path_session.specs.KeeperStates.{plain_of, history_of};

use crate::session::Session;
use crate::unanswered::Unanswered;
use dentry_cache::Keeper;
use directory_tree::Change;
use matcher::AnyProfile;
use mediation::{JudgedLink, JudgedTree, LinkAnswer, judge_names, link_by};
use names::{Errno, NoMemory, Path};
use path_lookup::{NAME_ROOM, Scratch, WalkFault};

impl Session {
    /// Makes a hard link if the profile allows it (apparmor.d(5), "Link rules"; link(2)): the new name needs `l`, and may allow
    /// no more than the old one. It waits for nobody.
    ///
    /// A link that the tree refuses fails with the tree's reason, before the profile is asked. If it isn't allowed, nothing is made.
    pub fn link_with(
        &mut self,
        keeper: &mut Keeper,
        old: &[u8],
        new: &[u8],
    ) -> Result<LinkAnswer, Unanswered>
        ensures same { IsSameSession self.old self.new × (self.new.walk ≡ self.old.walk) × (self.new.meetings ≡ self.old.meetings)
            × (self.new.kept_answers ≡ self.old.kept_answers) × (keeper.new.table ≡ keeper.old.table) }
        ensures kept { IfOk result (λ answer. IsUntouchedUnlessMade answer keeper.old keeper.new) }
        ensures policy_seen { IsPrefix self.old.reading.seen self.new.reading.seen }
        ensures learned { self.new.reading.learned ≡ self.old.reading.learned }
        ensures policy_read { OnOk result (IsLetIn self.old self.new) }
        ensures ok { IfOk result (λ answer. link_answered self.new.judged answer
            ≡ link_answer (history_of keeper.old self.new.reading.seen) self.old.profile old.now new.now) }
        ensures name { OnOk result (self.new.judged
            ≡ name_linked (link_answer (history_of keeper.old self.new.reading.seen) self.old.profile old.now new.now)) }
        ensures history { OnOk result (history_of keeper.new self.new.reading.seen
            ≡ after_link (history_of keeper.old self.new.reading.seen) old.now new.now
            (link_answer (history_of keeper.old self.new.reading.seen) self.old.profile old.now new.now)) }
        ensures err { IfErr result (λ why. (keeper.new ≡ keeper.old) × (self.new.judged ≡ [])
            × IsNoLink self.old self.new (link_answer (history_of keeper.old self.new.reading.seen) self.old.profile
            old.now new.now) why) }
    {
        self.name_length = 0;
        let Ok(policy_version) = self.known.read_policy() else {
            return Err(Unanswered::NoEntry);
        };
        let Some(profile) = self.known.published() else {
            return Ok(LinkAnswer::NoProfile { policy_version });
        };
        match link_by(
            keeper,
            profile,
            policy_version,
            old,
            new,
            &mut self.scratch,
            &mut self.name,
        ) {
            Ok((answer, name_length)) => {
                self.name_length = name_length;
                Ok(answer)
            }
            Err(NoMemory) => Err(Unanswered::NoMemory),
        }
    }
}

/// What the keeper answers, in terms of the plain tree that it represents.
impl JudgedTree<Session> for Keeper {
    ghost use Rattle.atomic_table.specs.Seated.{TableId};
    ghost use Rattle.dentry_cache.specs.Models.{Held};

    ghost plain = { plain_of };

    ghost State = { Held };

    ghost state = { λ keeper. keeper };

    ghost Kept = { TableId };

    ghost kept = { λ keeper. keeper.table };

    fn version(&self) -> u64 {
        Keeper::version(self)
    }

    fn apply(&mut self, change: &Change<'_>) -> Result<u64, Errno> {
        // No cell is read: a look's contract says that the history results in a tree, the one of the plain tree's outcome.
        self.look();
        Keeper::apply(self, change)
    }

    fn test(&mut self, change: &Change<'_>) -> Result<(), Errno> {
        // As in `apply`.
        self.look();
        Keeper::test(self, change)
    }

    fn judge_names(
        &mut self,
        profile: &AnyProfile,
        old: &Path<'_>,
        new: &Path<'_>,
        scratch: &mut Scratch,
        room: &mut [u8; NAME_ROOM],
    ) -> Result<JudgedLink, Errno> {
        match judge_names(self.look(), profile, old, new, scratch, room) {
            Ok(judged) => Ok(judged),
            Err(fault) => match fault {
                WalkFault::Refused(errno) => Err(errno),
                // The keeper's own row always encodes a tree, and all of it is known.
                WalkFault::Torn => unreachable!(),
            },
        }
    }
}
