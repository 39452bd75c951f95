//! A session's steps.
ghost use Rattle.std.specs.Prelude.{◌≡◌, ◌≤◌, ◌<◌, ℕ, IfOk, OnOk, OnErr, IfErr, length};
ghost use Rattle.tree_row.specs.Rows.{row_length};
ghost use Rattle.event_machine.specs.Machine.{new_session};
ghost use Rattle.open_session.specs.Steps.{Begins, ReadsPolicy, ReadsCount, ReadsCell, CellReads, ChecksCount, Answers, MayStep, MayTell};
ghost use Rattle.open_session.specs.Seen.{SeesTree};
ghost use Rattle.open_session.specs.Turns.{IsResting, IsBegun, SharesProfile, IsPoliced, IsReading, IsWalked, IsAnswerable};

use crate::call::{Call, Policed};
use crate::session::SteppedSession;
use crate::stage::Stage;
use crate::walk::{Checked, Walk};
use crate::walk_steps::Readings;
use event_machine::StepFault;
use justification::Answer;
use mediation::Policy;
use names::{NoMemory, Perms};
use path_lookup::{NAME_ROOM, Scratch};
use row_keeper::SteppedKeeper;
use std::alloc::{AllocError, Global};
use std::mem;
use tree_row::MOST_ENTRIES;

impl SteppedSession {
    /// A session that has begun no call, over a row with room for `capacity` entries.
    pub fn new(alloc: Global, capacity: usize) -> Result<SteppedSession, NoMemory>
        requires { capacity ≤ MOST_ENTRIES }
        ensures { IfOk result (λ session. session ≡ (capacity, new_session)) }
    {
        let Ok(name) = Box::new(alloc, [0; NAME_ROOM]) else {
            return Err(NoMemory);
        };
        let Ok(room) = Box::new(alloc, [0; NAME_ROOM]) else {
            return Err(NoMemory);
        };
        Ok(SteppedSession {
            capacity,
            name,
            name_length: 0,
            room,
            stage: Stage::Resting,
        })
    }

    /// The name that the last answer judged, empty if it judged none.
    pub fn name(&self) -> &[u8]
        ensures { result.now ≡ self.now.1.name }
    {
        &self.name[..self.name_length]
    }

    /// Begins a call: may this profile open this path with these permissions?
    pub fn begin(
        &mut self,
        alloc: Global,
        profile: &[u8],
        path: &[u8],
        ask: Perms,
    ) -> Result<(), StepFault>
        ensures capacity { self.new.0 ≡ self.old.0 }
        ensures ok { OnOk result (Begins (record { profile = profile.now; path = path.now; ask = ask }) self.old.1 self.new.1) }
        ensures err { OnErr result (self.new ≡ self.old) }
        ensures not_now { IfErr result (λ fault. fault ≡ StepFault.NotNow →
            ¬ (MayStep (Begins (record { profile = profile.now; path = path.now; ask = ask })) self.old.1)) }
        ensures turn { IfErr result (λ fault. fault ≡ StepFault.NotNow → ¬ (IsResting self.old.1.stage)) }
        ensures memory { IfErr result (λ fault. fault ≡ StepFault.NoMemory → IsResting self.old.1.stage) }
    {
        let Stage::Resting = self.stage else {
            return Err(StepFault::NotNow);
        };
        match Call::new(alloc, profile, path, ask) {
            Ok(call) => {
                self.stage = Stage::Begun(call);
                Ok(())
            }
            Err(AllocError) => Err(StepFault::NoMemory),
        }
    }

    /// Reads the policy: its version, and what it says about the profile's name. Memory is refused only for a share of a profile
    /// that is published.
    pub fn read_policy(&mut self, policy: &Policy) -> Result<(), StepFault>
        ensures capacity { self.new.0 ≡ self.old.0 }
        ensures ok { OnOk result (ReadsPolicy policy.now self.old.1 self.new.1) }
        ensures err { OnErr result (self.new ≡ self.old) }
        ensures not_now { IfErr result (λ fault. fault ≡ StepFault.NotNow → ¬ (MayStep (ReadsPolicy policy.now) self.old.1)) }
        ensures turn { IfErr result (λ fault. fault ≡ StepFault.NotNow → ¬ (IsBegun self.old.1.stage)) }
        ensures memory { IfErr result (λ fault. fault ≡ StepFault.NoMemory → SharesProfile policy.now self.old.1.stage) }
    {
        match mem::replace(&mut self.stage, Stage::Resting) {
            Stage::Begun(call) => match call.after_policy(policy) {
                Ok(stage) => {
                    self.stage = stage;
                    Ok(())
                }
                Err(call) => {
                    self.stage = Stage::Begun(call);
                    Err(StepFault::NoMemory)
                }
            },
            other => {
                self.stage = other;
                Err(StepFault::NotNow)
            }
        }
    }

    /// Reads the count, and chooses what to read next: the word at a place, or the count again. Takes no memory.
    pub fn read_count(
        &mut self,
        alloc: Global,
        keeper: &SteppedKeeper,
        scratch: &mut Scratch,
    ) -> Result<(), StepFault>
        requires { keeper.now.0 ≡ self.old.0 }
        ensures capacity { self.new.0 ≡ self.old.0 }
        ensures ok { OnOk result (ReadsCount self.old.0 keeper.now.1 self.old.1 self.new.1) }
        ensures err { OnErr result (self.new ≡ self.old) }
        ensures not_now { IfErr result (λ fault. fault ≡ StepFault.NotNow → ¬ (MayStep (ReadsCount self.old.0 keeper.now.1) self.old.1)) }
        ensures turn { IfErr result (λ fault. fault ≡ StepFault.NotNow → ¬ (IsPoliced self.old.1.stage)) }
        ensures memory { IfErr result (λ fault. fault ≡ StepFault.NotNow) }
    {
        match mem::replace(&mut self.stage, Stage::Resting) {
            Stage::Policed(policed) => {
                let walk = Walk::begin(alloc, policed, keeper, scratch, &mut self.room);
                self.stage = Stage::Walking(walk);
                Ok(())
            }
            other => {
                self.stage = other;
                Err(StepFault::NotNow)
            }
        }
    }

    /// Reads the word at the chosen place, and chooses again.
    pub fn read_cell(
        &mut self,
        keeper: &SteppedKeeper,
        scratch: &mut Scratch,
    ) -> Result<(), StepFault>
        requires capacity { keeper.now.0 ≡ self.old.0 }
        requires long { length keeper.now.1.cells ≡ row_length self.old.0 }
        ensures capacity { self.new.0 ≡ self.old.0 }
        ensures ok { OnOk result (ReadsCell self.old.0 keeper.now.1.cells self.old.1 self.new.1) }
        ensures err { OnErr result (self.new ≡ self.old) }
        ensures not_now { IfErr result (λ fault. fault ≡ StepFault.NotNow →
            ¬ (MayStep (ReadsCell self.old.0 keeper.now.1.cells) self.old.1)) }
        ensures turn { IfErr result (λ fault. fault ≡ StepFault.NotNow → ¬ (IsReading self.old.1.stage)) }
        ensures memory { IfErr result (λ fault. fault ≡ StepFault.NoMemory → IsReading self.old.1.stage) }
    {
        match self.read_cells(keeper, 1, scratch) {
            Ok(0) => Err(StepFault::NotNow),
            Ok(_) => Ok(()),
            Err(fault) => Err(fault),
        }
    }

    /// Reads as many cells as its walk needs, at most `most`, in one walk over the words that it knows and those cells. Returns
    /// the number of cells read. If memory is refused for a cell, which the walk reads next, the cells before it were read.
    pub fn read_cells(
        &mut self,
        keeper: &SteppedKeeper,
        most: usize,
        scratch: &mut Scratch,
    ) -> Result<usize, StepFault>
        requires capacity { keeper.now.0 ≡ self.old.0 }
        requires long { length keeper.now.1.cells ≡ row_length self.old.0 }
        ensures capacity { self.new.0 ≡ self.old.0 }
        ensures ok { IfOk result (λ count. (count ≤ most) × CellReads self.old.0 keeper.now.1.cells count self.old.1 self.new.1) }
        ensures all { IfOk result (λ count. count < most → ¬ (MayStep (ReadsCell self.old.0 keeper.now.1.cells) self.new.1)) }
        ensures turn { IfOk result (λ count. count < most → ¬ (IsReading self.new.1.stage)) }
        ensures err { IfErr result (λ fault. (fault ≡ StepFault.NoMemory)
            × ((count : ℕ) × (count < most) × CellReads self.old.0 keeper.now.1.cells count self.old.1 self.new.1)) }
        ensures memory { OnErr result (IsReading self.new.1.stage) }
    {
        match mem::replace(&mut self.stage, Stage::Resting) {
            Stage::Walking(walk) => {
                let Readings { walk, count } = walk.read_cells(
                    keeper.row(),
                    most,
                    scratch,
                    &mut self.room,
                );
                self.stage = Stage::Walking(walk);
                count
            }
            other => {
                self.stage = other;
                Ok(0)
            }
        }
    }

    /// Reads the count again, once the walk needs no cell. Takes no memory.
    pub fn check_count(&mut self, keeper: &SteppedKeeper) -> Result<(), StepFault>
        requires { SeesTree self.old.0 keeper.now.1 self.old.1.stage }
        ensures capacity { self.new.0 ≡ self.old.0 }
        ensures ok { OnOk result (ChecksCount keeper.now.1 self.old.1 self.new.1) }
        ensures err { OnErr result (self.new ≡ self.old) }
        ensures not_now { IfErr result (λ fault. fault ≡ StepFault.NotNow → ¬ (MayStep (ChecksCount keeper.now.1) self.old.1)) }
        ensures turn { IfErr result (λ fault. fault ≡ StepFault.NotNow → ¬ (IsWalked self.old.1.stage)) }
        ensures memory { IfErr result (λ fault. fault ≡ StepFault.NotNow) }
    {
        match mem::replace(&mut self.stage, Stage::Resting) {
            Stage::Walking(walk) => match walk.next_place() {
                None => {
                    let last = keeper.count();
                    let seen = keeper.history().again();
                    self.stage = Stage::Checked(Checked { walk, last, seen });
                    Ok(())
                }
                Some(_) => {
                    self.stage = Stage::Walking(walk);
                    Err(StepFault::NotNow)
                }
            },
            other => {
                self.stage = other;
                Err(StepFault::NotNow)
            }
        }
    }

    /// Answers the call, and goes back to rest. Allocates nothing.
    pub fn answer(&mut self) -> Result<Answer, StepFault>
        ensures capacity { self.new.0 ≡ self.old.0 }
        ensures ok { IfOk result (λ told. Answers self.old.0 told self.old.1 self.new.1) }
        ensures err { IfErr result (λ fault. (fault ≡ StepFault.NotNow) × (self.new ≡ self.old)) }
        ensures not_now { OnErr result (¬ (MayTell self.old.0 self.old.1)) }
        ensures turn { OnErr result (¬ (IsAnswerable self.old.1.stage)) }
    {
        match mem::replace(&mut self.stage, Stage::Resting) {
            Stage::Unpublished(_, policy_version) => {
                self.name_length = 0;
                Ok(Answer::NoProfile { policy_version })
            }
            Stage::Checked(checked) => {
                let told = checked.told(&self.room);
                mem::swap(&mut self.name, &mut self.room);
                self.name_length = told.name_length;
                Ok(told.answer)
            }
            other => {
                self.stage = other;
                Err(StepFault::NotNow)
            }
        }
    }
}
