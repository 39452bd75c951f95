//! Opens when the keeper is held exclusively.
ghost use Rattle.std.specs.Prelude.{◌≡◌, ◌≢◌, ◌⊎◌, ◌≤◌, IfOk, IfErr, IsOk, Err, length, take};
ghost use Rattle.names.specs.Limits.{longest_path};
ghost use mathlib.Core.List.{IsPrefix};
ghost use Rattle.dentry_cache.specs.Walks.{met_at};
ghost use Rattle.directory_tree.specs.Plain.{tree_of};
ghost use Rattle.mediation.specs.Answers.{answered, name_opened};
ghost use Rattle.mediation.specs.History.{open_answer};
ghost use Rattle.mediation.specs.Opens.{reached};
ghost use Rattle.justification.specs.Answers.{of_still};
ghost use Rattle.justification.specs.Justified.{Justified};
ghost use Rattle.justification.specs.Versions.{IsTreeAt};
ghost use Rattle.path_session.specs.Sessions.{IsSameSession, HasReadPolicy, HasVersions, IsNameJudged, IsByPublished, CountsRefusals};
ghost use Rattle.path_session.specs.Sessions.{counted};
ghost use Rattle.path_session.specs.AtHand.{IsAnswer, MayCountKept};
ghost use Rattle.mediation.specs.Deeds.{policy_after};
ghost use Rattle.path_session.specs.KeeperStates.{plain_of, history_of};
ghost use Rattle.path_session.specs.inner.Knowledge.{IsCurrent, IsOfVersions, IsReadAt, asked_by};
ghost use Rattle.kept_verdicts.specs.KeptFiles.{kept_of};
ghost use Rattle.path_session.specs.inner.Right.{IsRightFor};
ghost use Rattle.path_session.specs.inner.Walks.{end_of};

use crate::knowledge::Knowledge;
use crate::session::Session;
use dentry_cache::Keeper;
use justification::Answer;
use mediation::{Judged, Reached, answer_to_open, reach_file};
use names::{Errno, Perms};
use path_lookup::{NAME_ROOM, Scratch, WalkFault};
use verdict_cache::Question;

impl Session {
    /// Opens a file when the keeper is held exclusively: meets it, reads the policy, and answers by the verdict that is kept under these
    /// versions, or walks through the keeper's own look; so the answer is never `Busy`. It waits for nobody. Memory is allocated
    /// only to keep a verdict, and if that is refused, the answer is the same.
    ///
    /// The answer is right for the current tree, and for the policy that this call reads.
    pub fn open_with(&mut self, keeper: &mut Keeper, path: &[u8], ask: Perms) -> Answer
        requires { self.old.walk.table ≡ keeper.old.table }
        ensures same { IsSameSession self.old self.new × (keeper.new ≡ keeper.old) }
        ensures met { IsPrefix self.old.walk.view.seen keeper.old.history × (self.new.walk.view ≡ met_at keeper.old.history) }
        ensures meetings { self.new.meetings ≢ self.old.meetings }
        ensures policy_seen { IsPrefix self.old.reading.seen self.new.reading.seen }
        ensures learned { self.new.reading.learned ≡ self.old.reading.learned }
        ensures policy_read { HasReadPolicy self.old self.new result }
        ensures answer { IsAnswer (open_answer (history_of keeper.old self.new.reading.seen) self.old.profile path.now ask)
            self.new.judged result }
        ensures versions { HasVersions self.new result }
        ensures kept { MayCountKept self.old.kept_answers self.new.kept_answers result }
        ensures justified { Justified self.old.profile path.now ask keeper.old.history self.new.reading.seen result }
        ensures name { IsNameJudged keeper.old.history path.now ask result self.new.judged }
        ensures published { IsByPublished (policy_after self.new.reading.seen self.old.profile) result }
        ensures refused { CountsRefusals self.old self.new result }
    {
        self.name_length = 0;
        self.meet(keeper);
        let Ok(policy_version) = self.known.read_policy() else {
            return Answer::NoEntry;
        };
        let (answer, name_length) = self.known.answer_here(
            keeper,
            path,
            ask,
            policy_version,
            &mut self.scratch,
            &mut self.name,
        );
        self.name_length = name_length;
        Answer::from(answer)
    }

    /// Meets the keeper: the session has then seen all changes of the tree. It reads no count, and waits for nobody.
    pub fn meet(&mut self, keeper: &mut Keeper)
        requires { self.old.walk.table ≡ keeper.old.table }
        ensures same { IsSameSession self.old self.new × (keeper.new ≡ keeper.old) × (self.new.reading ≡ self.old.reading)
            × (self.new.judged ≡ self.old.judged) × (self.new.kept_answers ≡ self.old.kept_answers) }
        ensures met { IsPrefix self.old.walk.view.seen keeper.old.history × (self.new.walk.view ≡ met_at keeper.old.history) }
        ensures meetings { self.new.meetings ≢ self.old.meetings }
    {
        self.known.meet(keeper);
        self.meetings = self.meetings.wrapping_add(1);
    }
}

impl Knowledge {
    /// Answers an open by the current tree, which the walker has met, and by what was read last, which is from this version of the
    /// policy. Returns the length of the name that was judged, too: the name is at the front of `room`, and 0 is no name.
    pub(crate) fn answer_here(
        &mut self,
        keeper: &mut Keeper,
        path: &[u8],
        ask: Perms,
        policy_version: u64,
        scratch: &mut Scratch,
        room: &mut [u8; NAME_ROOM],
    ) -> (mediation::Answer, usize)
        requires read { IsReadAt self.old policy_version }
        requires met { self.old.walk.view.seen ≡ keeper.old.history }
        ensures same { (self.new.walk ≡ self.old.walk) × (self.new.reading ≡ self.old.reading) × (self.new.profile ≡ self.old.profile)
            × (keeper.new ≡ keeper.old) }
        ensures kept { MayCountKept self.old.kept_answers self.new.kept_answers (of_still result.0) }
        ensures fits { result.1 ≤ longest_path }
        ensures answer { answered (take result.1 room.new) result.0
            ≡ open_answer (history_of keeper.old self.old.reading.seen) self.old.profile path.now ask }
        ensures versions { IsOfVersions (length keeper.old.history) policy_version (of_still result.0) }
        ensures named { take result.1 room.new
            ≡ name_opened (open_answer (history_of keeper.old self.old.reading.seen) self.old.profile path.now ask) }
        ensures justified { Justified self.old.profile path.now ask keeper.old.history self.old.reading.seen (of_still result.0) }
        ensures name { IsNameJudged keeper.old.history path.now ask (of_still result.0) (take result.1 room.new) }
        ensures published { IsByPublished (policy_after self.old.reading.seen self.old.profile) (of_still result.0) }
    {
        if self.published().is_none() {
            return (mediation::Answer::NoProfile { policy_version }, 0);
        }
        let tree_version = keeper.version();
        let opened = self.open_here(keeper, path, ask, policy_version, scratch, room);
        answer_to_open(opened, tree_version, policy_version)
    }

    /// Opens a file by the current tree, which the walker has met, and by the profile that was read last, which is from this
    /// version of the policy.
    pub(crate) fn open_here(
        &mut self,
        keeper: &mut Keeper,
        path: &[u8],
        ask: Perms,
        policy_version: u64,
        scratch: &mut Scratch,
        room: &mut [u8; NAME_ROOM],
    ) -> Result<Judged, Errno>
        requires current { IsCurrent self.old policy_version }
        requires met { self.old.walk.view.seen ≡ keeper.old.history }
        ensures same { (self.new.walk ≡ self.old.walk) × (self.new.reading ≡ self.old.reading) × (self.new.profile ≡ self.old.profile)
            × (keeper.new ≡ keeper.old) }
        ensures kept { (self.new.kept_answers ≡ self.old.kept_answers)
            ⊎ (IsOk result × (self.new.kept_answers ≡ counted self.old.kept_answers)) }
        ensures fits { IfOk result (λ file. file.name_length ≤ longest_path) }
        ensures is_at { IsTreeAt keeper.old.history (length keeper.old.history) (tree_of (plain_of keeper.old)) }
        ensures right { IfOk result (λ file. IsRightFor keeper.old.history self.old.reading.seen
            (asked_by self.old path.now ask (length keeper.old.history) policy_version) (kept_of room.new file)) }
        ensures fault { IfErr result (λ errno. reached (tree_of (plain_of keeper.old)) path.now ask ≡ Err errno) }
    {
        let tree_version = keeper.version();
        meets_its_history(keeper);
        let question = Question {
            path,
            profile: &self.profile,
            ask,
            tree_version,
            policy_version,
        };
        if let Some(file) = self.verdicts.look(question, room) {
            self.kept_answers = self.kept_answers.wrapping_add(1);
            return Ok(file);
        }
        match reach_here(keeper, path, ask, scratch, room) {
            Ok(file) => Ok(self.judge(path, ask, tree_version, policy_version, &file, room)),
            Err(errno) => Err(errno),
        }
    }
}

/// The keeper's tree is that of all its changes. No cell is read.
fn meets_its_history(keeper: &mut Keeper)
    ensures same { keeper.new ≡ keeper.old }
    ensures is_at { IsTreeAt keeper.old.history (length keeper.old.history) (tree_of (plain_of keeper.old)) }
{
    // A look's contract says that the history results in a tree.
    keeper.look();
}

/// Finds a file in the current tree.
fn reach_here(
    keeper: &mut Keeper,
    path: &[u8],
    ask: Perms,
    scratch: &mut Scratch,
    room: &mut [u8; NAME_ROOM],
) -> Result<Reached, Errno>
    ensures same { keeper.new ≡ keeper.old }
    ensures fits { IfOk result (λ file. file.name_length ≤ longest_path) }
    ensures is_at { IsTreeAt keeper.old.history (length keeper.old.history) (tree_of (plain_of keeper.old)) }
    ensures end { reached (tree_of (plain_of keeper.old)) path.now ask ≡ end_of room.new result }
{
    match reach_file(keeper.look(), path, ask, scratch, room) {
        Ok(file) => Ok(file),
        Err(fault) => match fault {
            WalkFault::Refused(errno) => Err(errno),
            // The keeper's own row always encodes a tree, and all of it is known.
            WalkFault::Torn => unreachable!(),
        },
    }
}
