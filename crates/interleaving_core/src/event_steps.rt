//! The machine takes events.
use crate::machine::Core;
use directory_tree::Change;
use event_machine::{Event, EventMachine, StepFault, steps_keep_rule};
use justification::Answer;
use names::Errno;
use open_session::rule_gives_what_steps_require;

impl EventMachine for Core {
    ghost use Rattle.interleaving_core.specs.Parts.{machine_of};

    ghost machine = { machine_of };

    fn step(&mut self, event: &Event<'_>) -> Result<Option<Answer>, StepFault> {
        match event {
            Event::Begin {
                session,
                profile,
                path,
                ask,
            } => self.begin(*session, profile, path, *ask),
            Event::PolicyRead(session) => self.read_policy(*session),
            Event::CountRead(session) => self.read_count(*session),
            Event::CellRead(session) => self.read_cell(*session),
            Event::CountCheck(session) => self.check_count(*session),
            Event::Answer(session) => self.answer(*session),
            Event::Open(change) => self.open_change(change),
            Event::CellSet => self.set_cell(),
            Event::Close => self.close_change(),
            Event::Publish(changes) => self.publish(changes),
        }
    }

    fn read_cells(&mut self, session: u32, most: usize) -> Result<usize, StepFault> {
        steps_keep_rule();
        rule_gives_what_steps_require();
        self.sessions
            .read_cells(session, &self.keeper, most, &mut self.scratch)
    }

    fn test(&mut self, change: &Change<'_>) -> Result<Result<usize, Errno>, StepFault> {
        self.keeper.test(change)
    }

    fn has_open_change(&self) -> bool {
        self.keeper.cells_left().is_some()
    }

    fn tree_version(&self) -> u64 {
        self.keeper.version()
    }

    fn policy_version(&self) -> u64 {
        self.policy.version()
    }

    fn name(&self, session: u32) -> &[u8] {
        self.sessions.name(session)
    }
}
