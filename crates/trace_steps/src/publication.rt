//! Publications of policy.
ghost use Rattle.std.specs.Prelude.{◌≡◌, ◌++◌, Ok, codes};
ghost use Rattle.glob_automaton.specs.Automata.{StateLimit};
ghost use Rattle.mediation.specs.Deeds.{removed};
ghost use Rattle.mediation.specs.PolicyChanges.{deed_of};
ghost use Rattle.rule_profile.specs.Profile.{profile_value};
ghost use Rattle.rule_reader.specs.ReadText.{outcome_of};
ghost use Rattle.trace_steps.specs.StepLines.{Publishes, PublishesText};
ghost use Rattle.trace_steps.specs.inner.Actions.{HasLine};

use crate::calls::not_now_line;
use event_machine::{Event, EventMachine, StepFault};
use matcher::{CompiledProfile, MakeFault, PolicyChange};
use mediation::replacement;
use rule_profile::Profile;
use rule_reader::{ReadFault, read};
use std::alloc::Global;
use trace_report::Fault;
use trace_script::{Stop, joined, numbered_line, refusal_line};

/// Publishes the profile of a text, if it is one.
pub(crate) fn policy_line<M: EventMachine>(
    alloc: Global,
    machine: &mut M,
    text: &[u8],
) -> Result<Vec<u8>, Stop>
    ensures { (limit : StateLimit) → HasLine (λ lines. PublishesText limit (M.machine machine.old) (outcome_of text.now) lines
        (M.machine machine.new)) result }
{
    match read(alloc, text) {
        Ok(profile) => profile_line(alloc, machine, profile),
        Err(ReadFault::NoMemory) => Err(Stop::Memory),
        Err(fault) => refusal_line(alloc, Fault::Text(fault)),
    }
}

/// Publishes a profile, if it can be compiled.
fn profile_line<M: EventMachine>(
    alloc: Global,
    machine: &mut M,
    profile: Profile,
) -> Result<Vec<u8>, Stop>
    ensures { (limit : StateLimit) → HasLine (λ lines. PublishesText limit (M.machine machine.old) (Ok (profile_value profile)) lines
        (M.machine machine.new)) result }
{
    let start = joined(alloc, "policy ", profile.name(), " version ")?;
    match CompiledProfile::make(alloc, profile) {
        Ok(compiled) => {
            let change = replacement(alloc, compiled)?;
            publish(alloc, machine, change, start)
        }
        Err(MakeFault::NoMemory) => Err(Stop::Memory),
        Err(fault) => refusal_line(alloc, Fault::Compiling(fault)),
    }
}

/// Removes the profile of a name.
pub(crate) fn drop_line<M: EventMachine>(
    alloc: Global,
    machine: &mut M,
    name: &[u8],
) -> Result<Vec<u8>, Stop>
    ensures { HasLine (λ lines. Publishes (M.machine machine.old) (removed name.now)
        (codes "policy " ++ name.now ++ codes " removed version ") lines (M.machine machine.new)) result }
{
    let start = joined(alloc, "policy ", name, " removed version ")?;
    let change = PolicyChange::Remove(Vec::from_slice(alloc, name)?);
    publish(alloc, machine, change, start)
}

/// Publishes a change of the policy, and reports the version that it makes, after the beginning of its line.
fn publish<M: EventMachine>(
    alloc: Global,
    machine: &mut M,
    change: PolicyChange,
    start: Vec<u8>,
) -> Result<Vec<u8>, Stop>
    ensures { HasLine (λ lines. Publishes (M.machine machine.old) (deed_of change) start.items lines (M.machine machine.new)) result }
{
    let changes = [change];
    match machine.step(&Event::Publish(&changes)) {
        Ok(_) => numbered_line(alloc, start, machine.policy_version()),
        Err(StepFault::NotNow) => not_now_line(alloc),
        Err(StepFault::NoMemory) => Err(Stop::Memory),
    }
}
