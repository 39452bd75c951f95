//! Profiles to publish, and changes that are staged.
ghost use Rattle.std.specs.Prelude.{◌≡◌, [], ◌∷◌, ◌++◌, IfSome, OnOk, OnErr};
ghost use Rattle.std.specs.Arc.{arc_value};
ghost use Rattle.mediation.specs.Deeds.{published, removed};
ghost use Rattle.mediation.specs.PolicyChanges.{judge_shared};
ghost use Rattle.open_benchmarks.specs.Profiles.{IsCompiledFrom};

use matcher::{AnyProfile, CompiledProfile};
use names::NoMemory;
use profile_registry::Publisher;
use rule_reader::read;
use std::alloc::Global;
use std::sync::Arc;

/// The most changes that are staged: more than a run of many years makes.
const MOST_CHANGES: u64 = 1 << 59;

/// The profile of a text; none if memory runs out, or the text is no profile's, or its automaton has too many states.
pub fn compiled(alloc: Global, text: &[u8]) -> Option<Arc<AnyProfile>>
    ensures { IfSome result (λ shared. IsCompiledFrom text.now (arc_value shared)) }
{
    let Ok(profile) = read(alloc, text) else {
        return None;
    };
    let Ok(compiled) = CompiledProfile::make(alloc, profile) else {
        return None;
    };
    match Arc::new(alloc, AnyProfile::Compiled(compiled)) {
        Ok(shared) => Some(shared),
        Err(_) => None,
    }
}

/// Stages a share of a profile under a name. After 2^59 changes it is refused as out of memory.
pub fn stage(
    publisher: &mut Publisher,
    name: &[u8],
    profile: &Arc<AnyProfile>,
) -> Result<(), NoMemory>
    ensures ok { OnOk result (publisher.new ≡ record {
      published = publisher.old.published;
      staged = publisher.old.staged ++ published name.now (judge_shared profile.now) ∷ [];
    }) }
    ensures err { OnErr result (publisher.new ≡ publisher.old) }
{
    if publisher.changes() >= MOST_CHANGES {
        return Err(NoMemory);
    }
    match Arc::try_clone(profile) {
        Ok(share) => publisher.replace(name, share),
        Err(_) => Err(NoMemory),
    }
}

/// Stages that no profile has the name. After 2^59 changes it is refused as out of memory.
pub fn stage_removal(publisher: &mut Publisher, name: &[u8]) -> Result<(), NoMemory>
    ensures ok { OnOk result (publisher.new ≡ record {
      published = publisher.old.published;
      staged = publisher.old.staged ++ removed name.now ∷ [];
    }) }
    ensures err { OnErr result (publisher.new ≡ publisher.old) }
{
    if publisher.changes() >= MOST_CHANGES {
        return Err(NoMemory);
    }
    publisher.remove(name)
}
