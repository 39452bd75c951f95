//! Opens concurrently with the keeper.
ghost use Rattle.std.specs.Prelude.{◌≡◌, ◌≢◌, ◌+◌, ◌%◌, ◌≤◌, [], length};
ghost use Rattle.std.specs.Prelude.{ℕ, List, Contains, IfOk, IfErr, Ok, Err};
ghost use Rattle.names.specs.Limits.{longest_path};
ghost use mathlib.Core.List.{IsPrefix};
ghost use Rattle.mediation.specs.Deeds.{policy_after};
ghost use Rattle.mediation.specs.Judgments.{reached_of};
ghost use Rattle.justification.specs.Justified.{Justified};
ghost use Rattle.path_session.specs.Sessions.{IsSameSession, HasSeenMore, HasReadPolicy, HasReadCounts, HasVersions, IsByCounts};
ghost use Rattle.path_session.specs.Sessions.{CountsKept, IsNameJudged, IsByPublished, CountsRefusals};
ghost use Rattle.verdict_cache.specs.StructQuestions.{asked_of};
ghost use Rattle.verdict_cache.specs.Questions.{Asked, Kept};
ghost use Rattle.path_session.specs.inner.Attempts.{HasTried};
ghost use Rattle.path_session.specs.inner.Knowledge.{IsCurrent, asked_by, answer_of, name_of};
ghost use Rattle.path_session.specs.inner.Right.{IsRightFor};
ghost use Rattle.path_session.specs.inner.Walks.{HasWalked, WasDisturbed};

use crate::knowledge::Knowledge;
use crate::session::Session;
use dentry_cache::{Attempt, Busy, Walker};
use justification::Answer;
use kept_verdicts::KeptVerdicts;
use mediation::{Judged, Reached, answer_to_open, reach_file};
use names::{Errno, Perms};
use path_lookup::{NAME_ROOM, Scratch, WalkFault};
use tree_row::RowLook;
use verdict_cache::Question;

impl Session {
    /// Opens a file, concurrently with keeper and publisher: reads the policy, then the count; a verdict that is kept under these
    /// versions is the answer. Otherwise it walks, and reads the count again. If a change was open or came between, the answer is
    /// `Busy`. It waits for nobody. It allocates no memory except to keep a verdict, and if that is refused, the answer is the same.
    ///
    /// The answer is right for the changes of tree and policy that the session has then seen: those that it had seen before,
    /// and all that were made up to its own reads in this call (open(2), apparmor.d(5)).
    pub fn try_open(&mut self, path: &[u8], ask: Perms) -> Answer
        ensures same { IsSameSession self.old self.new × (self.new.meetings ≡ self.old.meetings) }
        ensures history { HasSeenMore self.old self.new }
        ensures learned { self.new.reading.learned ≡ self.old.reading.learned }
        ensures policy_read { HasReadPolicy self.old self.new result }
        ensures count_reads { HasReadCounts self.old.walk.view self.new.walk.view result }
        ensures versions { HasVersions self.new result }
        ensures counts { IsByCounts self.new.walk.view result }
        ensures kept { CountsKept self.old.walk.view self.new.walk.view self.old.kept_answers self.new.kept_answers }
        ensures justified { Justified self.old.profile path.now ask self.new.walk.view.seen self.new.reading.seen result }
        ensures name { IsNameJudged self.new.walk.view.seen path.now ask result self.new.judged }
        ensures published { IsByPublished (policy_after self.new.reading.seen self.old.profile) result }
        ensures refused { CountsRefusals self.old self.new result }
    {
        self.name_length = 0;
        let Ok(policy_version) = self.known.read_policy() else {
            return Answer::NoEntry;
        };
        if self.known.published().is_none() {
            return Answer::NoProfile { policy_version };
        }
        let opened = self.known.try_open(
            path,
            ask,
            policy_version,
            &mut self.scratch,
            &mut self.name,
        );
        match opened {
            Ok(Opened { tree_version, file }) => {
                let (answer, name_length) = answer_to_open(file, tree_version, policy_version);
                self.name_length = name_length;
                Answer::from(answer)
            }
            Err(Busy { began, ended }) => Answer::Busy { began, ended },
        }
    }
}

/// The outcome of a walk that ended well: the version of its tree, and the file, or why none was reached.
#[derive(Drop)]
pub(crate) struct Walked {
    pub(crate) version: u64,
    pub(crate) file: Result<Reached, Errno>,
}

/// The outcome of an open that no change disturbed: the version of its tree, and the file with its verdict, or why none was judged.
pub(crate) struct Opened {
    pub(crate) tree_version: u64,
    pub(crate) file: Result<Judged, Errno>,
}

impl Knowledge {
    /// One attempt to open a file by the profile that was read last, which is from this version of the policy. If a change is
    /// open when it begins, no cell is read.
    fn try_open(
        &mut self,
        path: &[u8],
        ask: Perms,
        policy_version: u64,
        scratch: &mut Scratch,
        room: &mut [u8; NAME_ROOM],
    ) -> Result<Opened, Busy>
        requires { IsCurrent self.old policy_version }
        ensures table { (self.new.walk.table ≡ self.old.walk.table) × (self.new.walk.capacity ≡ self.old.walk.capacity) }
        ensures same { (self.new.reading ≡ self.old.reading) × (self.new.profile ≡ self.old.profile)
            × (self.new.published ≡ self.old.published) }
        ensures seen { IsPrefix self.old.walk.view.seen self.new.walk.view.seen }
        ensures count_reads { HasReadCounts self.old.walk.view self.new.walk.view (answer_of policy_version result) }
        ensures kept { CountsKept self.old.walk.view self.new.walk.view self.old.kept_answers self.new.kept_answers }
        ensures version { IfOk result (λ opened. opened.tree_version ≡ length self.new.walk.view.seen) }
        ensures counts { IsByCounts self.new.walk.view (answer_of policy_version result) }
        ensures justified { Justified self.old.profile path.now ask self.new.walk.view.seen self.old.reading.seen
            (answer_of policy_version result) }
        ensures name { IsNameJudged self.new.walk.view.seen path.now ask (answer_of policy_version result) (name_of room.new result) }
        ensures fits { IfOk result (λ opened. IfOk opened.file (λ file. file.name_length ≤ longest_path)) }
    {
        let walked = match self.try_walk(path, ask, policy_version, scratch, room)? {
            Tried::Found { version, file } => {
                self.kept_answers = self.kept_answers.wrapping_add(1);
                return Ok(Opened {
                    tree_version: version,
                    file: Ok(file),
                });
            }
            Tried::Walked(walked) => walked,
        };
        let file = match walked.file {
            Ok(file) => Ok(self.judge(path, ask, walked.version, policy_version, &file, room)),
            Err(errno) => Err(errno),
        };
        Ok(Opened {
            tree_version: walked.version,
            file,
        })
    }

    /// One attempt to find a verdict that is kept, or else the file.
    fn try_walk(
        &mut self,
        path: &[u8],
        ask: Perms,
        policy_version: u64,
        scratch: &mut Scratch,
        room: &mut [u8; NAME_ROOM],
    ) -> Result<Tried, Busy>
        ensures table { (self.new.walk.table ≡ self.old.walk.table) × (self.new.walk.capacity ≡ self.old.walk.capacity) }
        ensures same { (self.new.reading ≡ self.old.reading) × (self.new.profile ≡ self.old.profile)
            × (self.new.published ≡ self.old.published) × (self.new.kept_answers ≡ self.old.kept_answers) }
        ensures seen { IsPrefix self.old.walk.view.seen self.new.walk.view.seen }
        ensures ok { IfOk result (HasTried self.old.walk.view self.new.walk.view
            (λ version. IsRightFor self.new.walk.view.seen self.old.reading.seen
            (asked_by self.old path.now ask version policy_version)) path.now ask room.new) }
        ensures busy { IfErr result (λ busy. WasDisturbed self.new.walk.view busy
            × (self.new.walk.view.count_reads ≡ self.old.walk.view.count_reads + 2)) }
    {
        let Some(walker) = self.walker.take() else {
            unreachable!()
        };
        let question = Question {
            path,
            profile: &self.profile,
            ask,
            tree_version: 0,
            policy_version,
        };
        let (walker, tried) = attempt(walker, &mut self.verdicts, question, scratch, room);
        self.walker = Some(walker);
        tried
    }
}

/// What an attempt found.
#[derive(Drop)]
pub(crate) enum Tried {
    /// A verdict that was kept in the tree of this version.
    Found { version: u64, file: Judged },
    Walked(Walked),
}

/// One attempt: a verdict that is kept under the question, at the version that the walk begins with, or else a walk. If a change
/// is open when it begins, no cell is read.
fn attempt(
    walker: Walker,
    verdicts: &mut KeptVerdicts,
    question: Question<'_>,
    scratch: &mut Scratch,
    room: &mut [u8; NAME_ROOM],
) -> (Walker, Result<Tried, Busy>)
    ensures same { (result.0.table ≡ walker.table) × (result.0.capacity ≡ walker.capacity) }
    ensures seen { IsPrefix walker.view.seen result.0.view.seen }
    ensures entries { (e : Asked × Kept) → Contains verdicts.new e → Contains verdicts.old e }
    ensures ok { IfOk result.1 (HasTried walker.view result.0.view
        (λ version kept. Contains verdicts.old (record (asked_of question.entry) { tree = version }, kept))
        question.entry.path.now question.entry.ask room.new) }
    ensures busy { IfErr result.1 (λ busy. WasDisturbed result.0.view busy
        × (result.0.view.count_reads ≡ walker.view.count_reads + 2)) }
{
    let attempt = walker.begin();
    if attempt.began() % 2 == 1 {
        let (walker, busy) = end_at_once(attempt);
        return (walker, Err(busy));
    }
    let version = attempt.began() / 2;
    let question = Question {
        tree_version: version,
        ..question
    };
    if let Some(file) = verdicts.look(question, room) {
        return (attempt.stop(), Ok(Tried::Found { version, file }));
    }
    let (walker, ended) = walk_beside(attempt, question.path, question.ask, scratch, room);
    match ended {
        Ok(walked) => (walker, Ok(Tried::Walked(walked))),
        Err(busy) => (walker, Err(busy)),
    }
}

/// Ends an attempt that began while a change was open.
fn end_at_once(attempt: Attempt) -> (Walker, Busy)
    requires { (attempt.view.noted % 2 ≡ 1) × (attempt.view.reads ≡ []) }
    ensures same { (result.0.table ≡ attempt.table) × (result.0.capacity ≡ attempt.capacity) }
    ensures seen { IsPrefix attempt.view.seen result.0.view.seen }
    ensures counts { result.0.view.count_reads ≡ attempt.view.count_reads + 1 }
    ensures busy { WasDisturbed result.0.view result.1 }
{
    let (walker, ended) = attempt.end();
    match ended {
        Err(busy) => (walker, busy),
        // The first count was odd.
        Ok(_) => unreachable!(),
    }
}

/// A walk to a file, and the end of the attempt.
fn walk_beside(
    attempt: Attempt,
    path: &[u8],
    ask: Perms,
    scratch: &mut Scratch,
    room: &mut [u8; NAME_ROOM],
) -> (Walker, Result<Walked, Busy>)
    requires { attempt.view.noted % 2 ≢ 1 }
    ensures same { (result.0.table ≡ attempt.table) × (result.0.capacity ≡ attempt.capacity) }
    ensures seen { IsPrefix attempt.view.seen result.0.view.seen }
    ensures counts { result.0.view.count_reads ≡ attempt.view.count_reads + 1 }
    ensures noted { result.0.view.noted ≡ attempt.view.noted }
    ensures ok { IfOk result.1 (λ walked. HasWalked result.0.view path.now ask room.new walked.version walked.file) }
    ensures fits { IfOk result.1 (λ walked. IfOk walked.file (λ file. file.name_length ≤ longest_path)) }
    ensures busy { IfErr result.1 (WasDisturbed result.0.view) }
{
    let mut look: RowLook<Attempt> = RowLook::new(attempt);
    let reached = reach_file(&mut look, path, ask, scratch, room);
    let (walker, ended) = look.into_cells().end();
    let version = match ended {
        Ok(version) => version,
        Err(busy) => return (walker, Err(busy)),
    };
    let file = match reached {
        Ok(file) => Ok(file),
        Err(fault) => match fault {
            WalkFault::Refused(errno) => Err(errno),
            // Some row that encodes a tree agrees with all that was read.
            WalkFault::Torn => unreachable!(),
        },
    };
    (walker, Ok(Walked { version, file }))
}
