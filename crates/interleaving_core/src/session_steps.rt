//! Steps of one of the sessions.
ghost use Rattle.std.specs.Prelude.{◌≡◌, ◌≤◌, ◌<◌, ℕ, IfOk, OnOk, OnErr, IfErr, length};
ghost use Rattle.tree_row.specs.Rows.{row_length};
ghost use Rattle.event_machine.specs.Machine.{new_session};
ghost use Rattle.open_session.specs.Steps.{Begins, ReadsPolicy, ReadsCount, ReadsCell, CellReads, ChecksCount, Answers, MayStep, MayTell};
ghost use Rattle.open_session.specs.Seen.{SeesTree};
ghost use Rattle.open_session.specs.Turns.{IsResting, IsBegun, SharesProfile, IsPoliced, IsReading, IsWalked, IsAnswerable};
ghost use Rattle.interleaving_core.specs.Table.{session_in, StepsIn};

use crate::sessions::Sessions;
use event_machine::StepFault;
use justification::Answer;
use names::Perms;
use open_session::{Policy, SteppedKeeper, SteppedSession};
use path_lookup::Scratch;

impl Sessions {
    /// The session begins a call: may this profile open this path for this?
    pub fn begin(
        &mut self,
        number: u32,
        profile: &[u8],
        path: &[u8],
        ask: Perms,
    ) -> Result<(), StepFault>
        ensures capacity { self.new.0 ≡ self.old.0 }
        ensures ok { OnOk result (StepsIn (Begins (record { profile = profile.now; path = path.now; ask = ask })) number
            (session_in self.old) (session_in self.new)) }
        ensures err { OnErr result (session_in self.new ≡ session_in self.old) }
        ensures not_now { IfErr result (λ fault. fault ≡ StepFault.NotNow →
            ¬ (MayStep (Begins (record { profile = profile.now; path = path.now; ask = ask })) (session_in self.old number))) }
        ensures turn { IfErr result (λ fault. fault ≡ StepFault.NotNow → ¬ (IsResting (session_in self.old number).stage)) }
        ensures memory { IfErr result (λ fault. fault ≡ StepFault.NoMemory → IsResting (session_in self.old number).stage) }
    {
        match self.by_number.get_mut(&number) {
            Some(session) => session.begin(self.alloc, profile, path, ask),
            None => self.begin_first(number, profile, path, ask),
        }
    }

    /// A session that isn't there yet begins its first call. From then on it is there.
    fn begin_first(
        &mut self,
        number: u32,
        profile: &[u8],
        path: &[u8],
        ask: Perms,
    ) -> Result<(), StepFault>
        requires { session_in self.old number ≡ new_session }
        ensures capacity { self.new.0 ≡ self.old.0 }
        ensures ok { OnOk result (StepsIn (Begins (record { profile = profile.now; path = path.now; ask = ask })) number
            (session_in self.old) (session_in self.new)) }
        ensures err { OnErr result (session_in self.new ≡ session_in self.old) }
        ensures memory { IfErr result (λ fault. fault ≡ StepFault.NoMemory) }
    {
        let Ok(mut session) = SteppedSession::new(self.alloc, self.capacity) else {
            return Err(StepFault::NoMemory);
        };
        match session.begin(self.alloc, profile, path, ask) {
            Ok(()) => match self.by_number.insert(number, session) {
                Ok(_) => Ok(()),
                Err(_) => Err(StepFault::NoMemory),
            },
            Err(fault) => Err(fault),
        }
    }

    /// The session reads the policy: its version, and what it says about the profile's name. Memory is refused only for a share
    /// of a profile that is published.
    pub fn read_policy(&mut self, number: u32, policy: &Policy) -> Result<(), StepFault>
        ensures capacity { self.new.0 ≡ self.old.0 }
        ensures ok { OnOk result (StepsIn (ReadsPolicy policy.now) number (session_in self.old) (session_in self.new)) }
        ensures err { OnErr result (session_in self.new ≡ session_in self.old) }
        ensures not_now { IfErr result (λ fault. fault ≡ StepFault.NotNow →
            ¬ (MayStep (ReadsPolicy policy.now) (session_in self.old number))) }
        ensures turn { IfErr result (λ fault. fault ≡ StepFault.NotNow → ¬ (IsBegun (session_in self.old number).stage)) }
        ensures memory { IfErr result (λ fault. fault ≡ StepFault.NoMemory →
            SharesProfile policy.now (session_in self.old number).stage) }
    {
        match self.by_number.get_mut(&number) {
            Some(session) => session.read_policy(policy),
            None => Err(StepFault::NotNow),
        }
    }

    /// The session reads the count, and chooses what it does next: it reads the word at a place, or the count. Takes no memory.
    pub fn read_count(
        &mut self,
        number: u32,
        keeper: &SteppedKeeper,
        scratch: &mut Scratch,
    ) -> Result<(), StepFault>
        requires { keeper.now.0 ≡ self.old.0 }
        ensures capacity { self.new.0 ≡ self.old.0 }
        ensures ok { OnOk result (StepsIn (ReadsCount self.old.0 keeper.now.1) number (session_in self.old) (session_in self.new)) }
        ensures err { OnErr result (session_in self.new ≡ session_in self.old) }
        ensures not_now { IfErr result (λ fault. fault ≡ StepFault.NotNow →
            ¬ (MayStep (ReadsCount self.old.0 keeper.now.1) (session_in self.old number))) }
        ensures turn { IfErr result (λ fault. fault ≡ StepFault.NotNow → ¬ (IsPoliced (session_in self.old number).stage)) }
        ensures memory { IfErr result (λ fault. fault ≡ StepFault.NotNow) }
    {
        match self.by_number.get_mut(&number) {
            Some(session) => session.read_count(self.alloc, keeper, scratch),
            None => Err(StepFault::NotNow),
        }
    }

    /// The session reads the word at the place that it chose, and chooses again.
    pub fn read_cell(
        &mut self,
        number: u32,
        keeper: &SteppedKeeper,
        scratch: &mut Scratch,
    ) -> Result<(), StepFault>
        requires capacity { keeper.now.0 ≡ self.old.0 }
        requires long { length keeper.now.1.cells ≡ row_length self.old.0 }
        ensures capacity { self.new.0 ≡ self.old.0 }
        ensures ok { OnOk result (StepsIn (ReadsCell self.old.0 keeper.now.1.cells) number (session_in self.old) (session_in self.new)) }
        ensures err { OnErr result (session_in self.new ≡ session_in self.old) }
        ensures not_now { IfErr result (λ fault. fault ≡ StepFault.NotNow →
            ¬ (MayStep (ReadsCell self.old.0 keeper.now.1.cells) (session_in self.old number))) }
        ensures turn { IfErr result (λ fault. fault ≡ StepFault.NotNow → ¬ (IsReading (session_in self.old number).stage)) }
        ensures memory { IfErr result (λ fault. fault ≡ StepFault.NoMemory → IsReading (session_in self.old number).stage) }
    {
        match self.by_number.get_mut(&number) {
            Some(session) => session.read_cell(keeper, scratch),
            None => Err(StepFault::NotNow),
        }
    }

    /// The session reads as many cells as its walk needs, at most `most`. Returns how many there were. If memory runs out for a
    /// cell, which it reads next, those before that were read.
    pub fn read_cells(
        &mut self,
        number: u32,
        keeper: &SteppedKeeper,
        most: usize,
        scratch: &mut Scratch,
    ) -> Result<usize, StepFault>
        requires capacity { keeper.now.0 ≡ self.old.0 }
        requires long { length keeper.now.1.cells ≡ row_length self.old.0 }
        ensures capacity { self.new.0 ≡ self.old.0 }
        ensures ok { IfOk result (λ count. (count ≤ most) × StepsIn (CellReads self.old.0 keeper.now.1.cells count) number
            (session_in self.old) (session_in self.new)) }
        ensures all { IfOk result (λ count. count < most →
            ¬ (MayStep (ReadsCell self.old.0 keeper.now.1.cells) (session_in self.new number))) }
        ensures turn { IfOk result (λ count. count < most → ¬ (IsReading (session_in self.new number).stage)) }
        ensures err { IfErr result (λ fault. (fault ≡ StepFault.NoMemory)
            × ((count : ℕ) × (count < most) × StepsIn (CellReads self.old.0 keeper.now.1.cells count) number (session_in self.old)
            (session_in self.new))) }
        ensures memory { OnErr result (IsReading (session_in self.new number).stage) }
    {
        match self.by_number.get_mut(&number) {
            Some(session) => session.read_cells(keeper, most, scratch),
            None => Ok(0),
        }
    }

    /// The session reads the count again, once it needs no cell. Takes no memory.
    pub fn check_count(&mut self, number: u32, keeper: &SteppedKeeper) -> Result<(), StepFault>
        requires { SeesTree self.old.0 keeper.now.1 (session_in self.old number).stage }
        ensures capacity { self.new.0 ≡ self.old.0 }
        ensures ok { OnOk result (StepsIn (ChecksCount keeper.now.1) number (session_in self.old) (session_in self.new)) }
        ensures err { OnErr result (session_in self.new ≡ session_in self.old) }
        ensures not_now { IfErr result (λ fault. fault ≡ StepFault.NotNow →
            ¬ (MayStep (ChecksCount keeper.now.1) (session_in self.old number))) }
        ensures turn { IfErr result (λ fault. fault ≡ StepFault.NotNow → ¬ (IsWalked (session_in self.old number).stage)) }
        ensures memory { IfErr result (λ fault. fault ≡ StepFault.NotNow) }
    {
        match self.by_number.get_mut(&number) {
            Some(session) => session.check_count(keeper),
            None => Err(StepFault::NotNow),
        }
    }

    /// The session answers its call, and rests. Allocates nothing.
    pub fn answer(&mut self, number: u32) -> Result<Answer, StepFault>
        ensures capacity { self.new.0 ≡ self.old.0 }
        ensures ok { IfOk result (λ told. StepsIn (Answers self.old.0 told) number (session_in self.old) (session_in self.new)) }
        ensures err { IfErr result (λ fault. (fault ≡ StepFault.NotNow) × (session_in self.new ≡ session_in self.old)) }
        ensures not_now { OnErr result (¬ (MayTell self.old.0 (session_in self.old number))) }
        ensures turn { OnErr result (¬ (IsAnswerable (session_in self.old number).stage)) }
    {
        match self.by_number.get_mut(&number) {
            Some(session) => session.answer(),
            None => Err(StepFault::NotNow),
        }
    }
}
