//! The change that publishes a profile.
ghost use Rattle.std.specs.Prelude.{◌≡◌, IfOk};
ghost use Rattle.mediation.specs.Deeds.{published_rules};
ghost use Rattle.mediation.specs.PolicyChanges.{deed_of};
ghost use Rattle.rule_profile.specs.Profile.{profile_value};

use matcher::{AnyProfile, CompiledProfile, PolicyChange};
use names::NoMemory;
use std::alloc::Global;
use std::sync::Arc;

/// The change that publishes a profile under its own name.
pub fn replacement(alloc: Global, compiled: CompiledProfile) -> Result<PolicyChange, NoMemory>
    ensures { IfOk result (λ change. deed_of change ≡ published_rules (profile_value compiled.profile)) }
{
    let Ok(name) = Vec::from_slice(alloc, compiled.profile().name()) else {
        return Err(NoMemory);
    };
    match Arc::new(alloc, AnyProfile::Compiled(compiled)) {
        Ok(profile) => Ok(PolicyChange::Replace(name, profile)),
        Err(_) => Err(NoMemory),
    }
}
