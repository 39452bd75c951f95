//! Machines that take events.
ghost use Rattle.std.specs.Prelude.{◌≡◌, ◌≤◌, ◌<◌, ℕ, [], None, IfOk, IfErr, OnErr, is_some, length};
ghost use Rattle.event_machine.specs.Machine.{Machine};
ghost use Rattle.event_machine.specs.Machine.Event.{read_cell, open_change};
ghost use Rattle.event_machine.specs.Takes.{Takes};
ghost use Rattle.event_machine.specs.Runs.{Runs};
ghost use Rattle.event_machine.specs.Lawful.{IsLawful, HasTurn, TakesMemory, cell_reads, IsTested};
ghost use Rattle.event_machine.specs.Coded.{event_of};

use crate::event::{Event, StepFault};
use directory_tree::Change;
use justification::Answer;
use names::Errno;

/// A machine that takes events, one at a time.
pub trait EventMachine {
    // Its state.
    ghost machine: { Self → Machine };

    /// Takes an event if it is legal, and returns its answer: that of the session, or nothing. If the event isn't legal, or
    /// memory runs out, nothing changes. An event of a session is legal if it is its turn. Memory runs out only where the event
    /// needs any, and would be taken otherwise.
    fn step(&mut self, event: &Event<'_>) -> Result<Option<Answer>, StepFault>
        ensures ok { IfOk result (λ told. Takes (machine self.old) (event_of event.now) told (machine self.new)) }
        ensures same { OnErr result (machine self.new ≡ machine self.old) }
        ensures not_now { IfErr result (λ fault. fault ≡ StepFault.NotNow → ¬ (IsLawful (machine self.old) (event_of event.now))) }
        ensures turn { IfErr result (λ fault. fault ≡ StepFault.NotNow → ¬ (HasTurn (machine self.old) (event_of event.now))) }
        ensures memory { IfErr result (λ fault. fault ≡ StepFault.NoMemory → TakesMemory (machine self.old) (event_of event.now)) };

    /// Takes events [`Event::CellRead`] of a session, as many as are legal one after the other, but at most `most`. Returns their
    /// number. If memory runs out, which it does only where a further one is the session's turn, those before that were taken.
    fn read_cells(&mut self, session: u32, most: usize) -> Result<usize, StepFault>
        ensures ok { IfOk result (λ count. (count ≤ most) × Runs (machine self.old) (cell_reads session count) [] (machine self.new)) }
        ensures all { IfOk result (λ count. count < most → ¬ (IsLawful (machine self.new) (read_cell session))) }
        ensures turn { IfOk result (λ count. count < most → ¬ (HasTurn (machine self.new) (read_cell session))) }
        ensures err { IfErr result (λ fault. (fault ≡ StepFault.NoMemory)
            × ((count : ℕ) × (count < most) × Runs (machine self.old) (cell_reads session count) [] (machine self.new))) }
        ensures memory { OnErr result (TakesMemory (machine self.new) (read_cell session)) };

    /// How many cells a change would set, which is the number of events [`Event::CellSet`] from its [`Event::Open`] to its
    /// [`Event::Close`]; or the errno that it is refused with. Not possible while another change is open. Changes nothing.
    /// Memory runs out only for a change that would be accepted.
    fn test(&mut self, change: &Change<'_>) -> Result<Result<usize, Errno>, StepFault>
        ensures same { machine self.new ≡ machine self.old }
        ensures ok { IfOk result (IsTested (machine self.old) change.now) }
        ensures not_now { IfErr result (λ fault. fault ≡ StepFault.NotNow → ¬ ((machine self.old).keeper.pending ≡ None)) }
        ensures memory { IfErr result (λ fault. fault ≡ StepFault.NoMemory → TakesMemory (machine self.old) (open_change change.now)) };

    /// Whether a change of the tree is open.
    fn has_open_change(&self) -> bool
        ensures { result ≡ is_some (machine self.now).keeper.pending };

    /// How many changes of the tree were made.
    fn tree_version(&self) -> u64
        ensures { result ≡ length (machine self.now).keeper.history };

    /// How many changes of the policy were published.
    fn policy_version(&self) -> u64
        ensures { result ≡ length (machine self.now).deeds };

    /// The name that the session's last answer judged, empty if it judged none.
    fn name(&self, session: u32) -> &[u8]
        ensures { result.now ≡ ((machine self.now).sessions session).name };
}
