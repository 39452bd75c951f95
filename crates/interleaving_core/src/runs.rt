//! Lists of events.
ghost use Rattle.std.specs.Prelude.{◌≡◌, ◌++◌, IfOk, OnOk, OnErr, IsSome, map};
ghost use Rattle.event_machine.specs.Coded.{event_of};
ghost use Rattle.event_machine.specs.Runs.{told_by};
ghost use Rattle.interleaving_core.specs.Parts.{machine_of};
ghost use Rattle.interleaving_core.specs.Runs.{IsRun, IsCutShort};
ghost use Rattle.interleaving_core.specs.inner.PassedEvents.{IsPass};

use crate::machine::Core;
use event_machine::{Event, EventMachine, StepFault, answers_are_right, steps_go_on_runs};
use justification::Answer;
use names::NoMemory;

/// Takes the events that are legal, in order, and passes over the others. The answers come with their sessions.
///
/// **Each answer is right**, whatever the events are: the event that gave it is one of those that were taken, and there it is
/// justified by the changes of the tree and of the policy made until then, at versions that were current at events of its own
/// call (`IsGiven`, `IsRight`).
///
/// If memory is refused, for an event that needs memory or for an answer in the list, the machine is in the state after the events
/// that were taken until then.
pub fn run(core: &mut Core, events: &[Event<'_>]) -> Result<Vec<(u32, Answer)>, NoMemory>
    ensures ok { IfOk result (λ answers. IsRun (machine_of core.old) (map event_of events.now) answers.items (machine_of core.new)) }
    ensures err { OnErr result (IsCutShort (machine_of core.old) (map event_of events.now) (machine_of core.new)) }
{
    answers_are_right();
    steps_go_on_runs();
    let mut answers = Vec::new(core.alloc());
    for event in events {
        pass(core, event, &mut answers)?;
    }
    Ok(answers)
}

/// Takes an event if it is legal, and notes its answer.
fn pass(
    core: &mut Core,
    event: &Event<'_>,
    answers: &mut Vec<(u32, Answer)>,
) -> Result<(), NoMemory>
    ensures { IsPass (machine_of core.old) (event_of event.now) answers.old.items result (machine_of core.new) answers.new.items }
{
    match core.step(event) {
        Ok(told) => note(event, told, answers),
        Err(StepFault::NotNow) => Ok(()),
        Err(StepFault::NoMemory) => Err(NoMemory),
    }
}

/// Notes an answer with its session. Takes no memory if there is none.
fn note(
    event: &Event<'_>,
    told: Option<Answer>,
    answers: &mut Vec<(u32, Answer)>,
) -> Result<(), NoMemory>
    ensures ok { OnOk result (answers.new.items ≡ answers.old.items ++ told_by (event_of event.now) told) }
    ensures err { OnErr result (IsSome told) }
{
    let Some(told) = told else {
        return Ok(());
    };
    let Event::Answer(session) = event else {
        return Ok(());
    };
    match answers.push((*session, told)) {
        Ok(()) => Ok(()),
        Err(_) => Err(NoMemory),
    }
}
