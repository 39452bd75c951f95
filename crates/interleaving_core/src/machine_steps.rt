//! The machine's steps, one for each kind of event.
ghost use Rattle.std.specs.Prelude.{◌≡◌, map};
ghost use Rattle.event_machine.specs.Machine.Event.{begin, read_policy, read_count, read_cell, check_count, answer, open_change, set_cell};
ghost use Rattle.event_machine.specs.Machine.Event.{close_change, publish};
ghost use Rattle.mediation.specs.PolicyChanges.{deed_of};
ghost use Rattle.interleaving_core.specs.Parts.{machine_of};
ghost use Rattle.interleaving_core.specs.inner.EventSteps.{IsStep, silent_of};

use crate::machine::Core;
use directory_tree::Change;
use event_machine::{StepFault, steps_keep_rule};
use justification::Answer;
use matcher::PolicyChange;
use names::{MOST_CHANGES, NoMemory, Perms};
use open_session::rule_gives_what_steps_require;
use row_keeper::NotNow;

/// Fewer than this many changes of the policy are published: 2^60.
const TOO_MANY_DEEDS: u64 = MOST_CHANGES + 1;

impl Core {
    /// A session begins a call.
    pub(crate) fn begin(
        &mut self,
        session: u32,
        profile: &[u8],
        path: &[u8],
        ask: Perms,
    ) -> Result<Option<Answer>, StepFault>
        ensures { IsStep (machine_of self.old) (begin session record { profile = profile.now; path = path.now; ask = ask }) result
            (machine_of self.new) }
    {
        steps_keep_rule();
        silent(self.sessions.begin(session, profile, path, ask))
    }

    /// A session reads what the policy has for its profile.
    pub(crate) fn read_policy(&mut self, session: u32) -> Result<Option<Answer>, StepFault>
        ensures { IsStep (machine_of self.old) (read_policy session) result (machine_of self.new) }
    {
        steps_keep_rule();
        silent(self.sessions.read_policy(session, &self.policy))
    }

    /// A session reads the count, to begin its walk.
    pub(crate) fn read_count(&mut self, session: u32) -> Result<Option<Answer>, StepFault>
        ensures { IsStep (machine_of self.old) (read_count session) result (machine_of self.new) }
    {
        steps_keep_rule();
        let read = self
            .sessions
            .read_count(session, &self.keeper, &mut self.scratch);
        silent(read)
    }

    /// A session reads the next cell that its walk needs.
    pub(crate) fn read_cell(&mut self, session: u32) -> Result<Option<Answer>, StepFault>
        ensures { IsStep (machine_of self.old) (read_cell session) result (machine_of self.new) }
    {
        steps_keep_rule();
        rule_gives_what_steps_require();
        let read = self
            .sessions
            .read_cell(session, &self.keeper, &mut self.scratch);
        silent(read)
    }

    /// A session reads the count again, to end its walk.
    pub(crate) fn check_count(&mut self, session: u32) -> Result<Option<Answer>, StepFault>
        ensures { IsStep (machine_of self.old) (check_count session) result (machine_of self.new) }
    {
        steps_keep_rule();
        rule_gives_what_steps_require();
        silent(self.sessions.check_count(session, &self.keeper))
    }

    /// A session answers.
    pub(crate) fn answer(&mut self, session: u32) -> Result<Option<Answer>, StepFault>
        ensures { IsStep (machine_of self.old) (answer session) result (machine_of self.new) }
    {
        steps_keep_rule();
        match self.sessions.answer(session) {
            Ok(told) => Ok(Some(told)),
            Err(fault) => Err(fault),
        }
    }

    /// The keeper plans a change, and makes the count odd.
    pub(crate) fn open_change(&mut self, change: &Change<'_>) -> Result<Option<Answer>, StepFault>
        ensures { IsStep (machine_of self.old) (open_change change.now) result (machine_of self.new) }
    {
        steps_keep_rule();
        silent(self.keeper.open(change))
    }

    /// The keeper sets the next cell of its plan.
    pub(crate) fn set_cell(&mut self) -> Result<Option<Answer>, StepFault>
        ensures { IsStep (machine_of self.old) set_cell result (machine_of self.new) }
    {
        steps_keep_rule();
        match self.keeper.set() {
            Ok(()) => Ok(None),
            Err(NotNow) => Err(StepFault::NotNow),
        }
    }

    /// The keeper makes the count even.
    pub(crate) fn close_change(&mut self) -> Result<Option<Answer>, StepFault>
        ensures { IsStep (machine_of self.old) close_change result (machine_of self.new) }
    {
        steps_keep_rule();
        match self.keeper.close() {
            Ok(()) => Ok(None),
            Err(NotNow) => Err(StepFault::NotNow),
        }
    }

    /// Changes of the policy are published.
    pub(crate) fn publish(&mut self, changes: &[PolicyChange]) -> Result<Option<Answer>, StepFault>
        ensures { IsStep (machine_of self.old) (publish (map deed_of changes.now)) result (machine_of self.new) }
    {
        let left = TOO_MANY_DEEDS.saturating_sub(self.policy.version());
        if changes.is_empty() || changes.len() as u64 >= left {
            return Err(StepFault::NotNow);
        }
        match self.policy.publish(changes) {
            Ok(_) => Ok(None),
            Err(NoMemory) => Err(StepFault::NoMemory),
        }
    }
}

/// A step that is taken has no answer.
fn silent(taken: Result<(), StepFault>) -> Result<Option<Answer>, StepFault>
    ensures { result ≡ silent_of taken }
{
    match taken {
        Ok(()) => Ok(None),
        Err(fault) => Err(fault),
    }
}
