//! Changes of the policy, with what a refused publication left staged.
ghost use Rattle.std.specs.Prelude.{◌≡◌, ◌-◌, ◌^◌, ◌<◌, false, [], IfOk, IfErr, OnErr};
ghost use Rattle.glob_automaton.specs.Automata.{most_sets};
ghost use Rattle.glob_automaton.specs.Sets.{AreMoreThan};
ghost use Rattle.matcher.specs.MakeFaults.{IsMakeFault};
ghost use Rattle.mediation.specs.Deeds.{published_rules, removed};
ghost use Rattle.mediation.specs.PolicyChanges.{deed_of};
ghost use Rattle.profile_registry.specs.Views.{changes_of};
ghost use Rattle.rule_profile.specs.Profile.{profile_value};
ghost use Rattle.script_bench.specs.Benches.{HasPublished, IsKeptBack, IsSameBut};

use crate::session_bench::SessionBench;
use matcher::{CompiledProfile, MakeFault, PolicyChange};
use mediation::replacement;
use names::NoMemory;
use profile_registry::Publisher;
use rule_profile::Profile;
use std::sync::Wait;

impl<R: Wait> SessionBench<'_, R> {
    /// Whether a publication was refused after its change was staged, and none was made since.
    pub fn has_staged(&self) -> bool
        ensures none { result ≡ false → self.now.publisher.staged ≡ [] }
        ensures some { self.now.publisher.staged ≡ [] → result ≡ false }
    {
        self.publisher.changes() != self.publisher.version()
    }

    /// Publishes a profile under its name together with what is staged, all at once, and returns the policy's new version. If
    /// memory is refused, nothing is published, and this change may be staged, too, for the next publication.
    pub fn publish_with_staged(&mut self, profile: Profile) -> Result<u64, MakeFault>
        requires { changes_of self.old.publisher < 2 ^ 60 - 1 }
        ensures same { IsSameBut self.old self.new }
        ensures ok { IfOk result (λ version.
            HasPublished self.old.publisher self.new.publisher (published_rules (profile_value profile)) version
            × ¬ (AreMoreThan most_sets (profile_value profile).rules)) }
        ensures err { IfErr result (λ fault. IsKeptBack self.old.publisher self.new.publisher (published_rules (profile_value profile))
            × IsMakeFault (profile_value profile).rules fault) }
    {
        let compiled = CompiledProfile::make(self.alloc, profile)?;
        let change = replacement(self.alloc, compiled)?;
        Ok(publish_one(self.rt, &mut self.publisher, change)?)
    }

    /// Removes the profile of a name together with what is staged, as [`publish_with_staged`](SessionBench::publish_with_staged)
    /// publishes one.
    pub fn remove_with_staged(&mut self, name: &[u8]) -> Result<u64, NoMemory>
        requires { changes_of self.old.publisher < 2 ^ 60 - 1 }
        ensures same { IsSameBut self.old self.new }
        ensures ok { IfOk result (HasPublished self.old.publisher self.new.publisher (removed name.now)) }
        ensures err { OnErr result (IsKeptBack self.old.publisher self.new.publisher (removed name.now)) }
    {
        let Ok(name) = Vec::from_slice(self.alloc, name) else {
            return Err(NoMemory);
        };
        publish_one(self.rt, &mut self.publisher, PolicyChange::Remove(name))
    }
}

/// Publishes one change together with those that are staged, and returns the policy's new version. If memory runs out, nothing is
/// published; if that is after the change was staged, it stays staged.
fn publish_one<R: Wait>(
    rt: &R,
    publisher: &mut Publisher,
    change: PolicyChange,
) -> Result<u64, NoMemory>
    requires { changes_of publisher.old < 2 ^ 60 - 1 }
    ensures ok { IfOk result (HasPublished publisher.old publisher.new (deed_of change)) }
    ensures err { OnErr result (IsKeptBack publisher.old publisher.new (deed_of change)) }
{
    match change {
        PolicyChange::Replace(name, profile) => publisher.replace(&name, profile)?,
        PolicyChange::Remove(name) => publisher.remove(&name)?,
    }
    publisher.publish(rt)
}
