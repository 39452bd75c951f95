//! Policies of a test, whose rules are kept for questions.
ghost use Rattle.std.specs.Prelude.{◌≡◌, ◌+◌, ◌≤◌, ◌++◌, Ok, IfOk, codes};
ghost use Rattle.trace_report.specs.Fault.{fault_text};
ghost use Rattle.glob_automaton.specs.Automata.{StateLimit};
ghost use Rattle.mediation.specs.History.{MayChangePolicy, policy_version};
ghost use Rattle.rule_profile.specs.Profile.{profile_value};
ghost use Rattle.rule_reader.specs.ReadText.{outcome_of};
ghost use Rattle.trace_test.specs.inner.Published.{rules_in};
ghost use Rattle.trace_test.specs.inner.Tests.{IsPolicyDone, IsRefusal, refusals_in};

use crate::published::Published;
use matcher::MakeFault;
use mediation::Bench;
use rule_profile::Profile;
use rule_reader::{ReadFault, read};
use std::alloc::Global;
use trace_report::Fault;
use trace_script::{Stop, joined, numbered_line, refusal_line};

/// The answer to a policy.
#[derive(Drop)]
pub(crate) struct PolicyAnswer {
    /// The answer, as a line.
    pub(crate) line: Vec<u8>,
    /// The number of the `policy` line, if the policy is refused.
    pub(crate) refused: Option<u64>,
}

/// Publishes the profile of the text after the line `start`, if it is one, keeps its rules, and composes the answer as `run` does.
pub(crate) fn publish<B: Bench>(
    alloc: Global,
    bench: &mut B,
    published: &mut Published,
    start: u64,
    text: &[u8],
) -> Result<PolicyAnswer, Stop>
    requires { MayChangePolicy (B.history bench.old).deeds }
    ensures done { (limit : StateLimit) → IsPolicyDone start limit (outcome_of text.now) (B.history bench.old) (rules_in published.old)
        (B.history bench.new) (rules_in published.new) result }
    ensures few { IfOk result (λ answer. policy_version (B.history bench.new) + refusals_in answer
        ≤ policy_version (B.history bench.old) + 1) }
{
    match read(alloc, text) {
        Ok(profile) => {
            // The bench takes the profile, so that its rules are read once more to be kept.
            let Ok(kept) = read(alloc, text) else {
                return Err(Stop::Memory);
            };
            publish_profile(alloc, bench, published, start, profile, kept)
        }
        Err(ReadFault::NoMemory) => Err(Stop::Memory),
        Err(fault) => refused(alloc, start, Fault::Text(fault)),
    }
}

/// Publishes a profile, if it can be compiled, and keeps another one of the same value. Its line is begun first, so that running
/// out of memory there publishes nothing.
fn publish_profile<B: Bench>(
    alloc: Global,
    bench: &mut B,
    published: &mut Published,
    start: u64,
    profile: Profile,
    kept: Profile,
) -> Result<PolicyAnswer, Stop>
    requires policy { MayChangePolicy (B.history bench.old).deeds }
    requires same { profile_value kept ≡ profile_value profile }
    ensures done { (limit : StateLimit) → IsPolicyDone start limit (Ok (profile_value profile)) (B.history bench.old)
        (rules_in published.old) (B.history bench.new) (rules_in published.new) result }
    ensures few { IfOk result (λ answer. policy_version (B.history bench.new) + refusals_in answer
        ≤ policy_version (B.history bench.old) + 1) }
{
    let line = joined(alloc, "policy ", profile.name(), " version ")?;
    match bench.publish(profile) {
        Ok(version) => {
            published.add(alloc, kept)?;
            Ok(PolicyAnswer {
                line: numbered_line(alloc, line, version)?,
                refused: None,
            })
        }
        Err(MakeFault::NoMemory) => Err(Stop::Memory),
        Err(fault) => refused(alloc, start, Fault::Compiling(fault)),
    }
}

/// The answer to a policy that is refused.
fn refused(alloc: Global, start: u64, fault: Fault) -> Result<PolicyAnswer, Stop>
    ensures { IsRefusal start (codes "policy " ++ fault_text fault) result }
{
    Ok(PolicyAnswer {
        line: refusal_line(alloc, fault)?,
        refused: Some(start),
    })
}
