//! The changes of the policy.
ghost use Rattle.std.specs.Prelude.{◌+◌, ℕ, IfOk, OnOk};
ghost use Rattle.path_storm.specs.Logs.{IsPolicyLog};

use crate::fault::StormFault;
use crate::log::PolicyLog;
use crate::profiles::Profiles;
use crate::setup::PROFILE;
use matcher::{AnyProfile, PolicyChange};
use names::Errno;
use path_guard::{Guard, Row};
use std::alloc::Global;
use std::sync::{Arc, Wait};
use std::thread::Promise;

/// The promise that a thread which ends well has published, or been refused, this many profiles.
#[derive(Clone, Copy)]
pub(crate) struct Replacements {
    pub times: u64,
}

impl Promise<Result<PolicyLog, StormFault>> for Replacements {
    ghost use Rattle.std.specs.Prelude.{IfOk};
    ghost use Rattle.path_storm.specs.Logs.{IsPolicyLog};

    ghost kept_by = { λ p r. IfOk r (IsPolicyLog p.times) };
}

/// Publishes the first profile.
pub(crate) fn publish_first<M: Row>(
    rt: &impl Wait,
    alloc: Global,
    guard: &Guard<M>,
    profiles: &Profiles,
) -> Result<PolicyLog, StormFault>
    ensures { IfOk result (IsPolicyLog 1) }
{
    let mut log = PolicyLog::new(alloc);
    replace(rt, alloc, guard, &mut log, profiles.after(0)?)?;
    Ok(log)
}

/// Publishes the second and the first profile alternately.
pub(crate) fn replace_all<M: Row>(
    rt: &impl Wait,
    alloc: Global,
    guard: &Guard<M>,
    profiles: &Profiles,
    promised: Replacements,
) -> Result<PolicyLog, StormFault>
    ensures { IfOk result (IsPolicyLog promised.times) }
{
    let mut log = PolicyLog::new(alloc);
    for change in 0..promised.times {
        replace(rt, alloc, guard, &mut log, profiles.after(change + 1)?)?;
    }
    Ok(log)
}

/// Publishes a profile, and records it, or why it was refused. If an allocation fails, the storm ends.
#[tactic(auto, using(crate::proofs::Logged::policy_made, crate::proofs::Logged::policy_refused))]
fn replace<M: Row>(
    rt: &impl Wait,
    alloc: Global,
    guard: &Guard<M>,
    log: &mut PolicyLog,
    profile: Arc<AnyProfile>,
) -> Result<(), StormFault>
    ensures { OnOk result ((tried : ℕ) → IsPolicyLog tried log.old → IsPolicyLog (tried + 1) log.new) }
{
    let name = Vec::from_slice(alloc, PROFILE)?;
    let share = Arc::try_clone(&profile)?;
    match guard.replace(rt, PROFILE, profile) {
        Ok(_) => Ok(log.made.push(PolicyChange::Replace(name, share))?),
        Err(Errno::ENOMEM) => Err(StormFault::NoMemory),
        Err(errno) => Ok(log.refused.push(errno)?),
    }
}
