//! Shares of profiles, by their names.
ghost use Rattle.std.specs.Prelude.{◌≡◌, IfOk, OnOk, None, map};
ghost use Rattle.std.specs.Option.{option_map};
ghost use Rattle.mediation.specs.Deeds.{after_deed, after_deeds};
ghost use Rattle.mediation.specs.PolicyChanges.{deed_of, judge_shared};
ghost use Rattle.mediation.specs.inner.Profiles.{policy_in};

use matcher::{AnyProfile, PolicyChange};
use names::NoMemory;
use std::alloc::{AllocError, Global};
use std::collections::BTreeMap;
use std::sync::Arc;

/// The profiles by their names.
#[derive(Drop)]
pub(crate) struct Profiles {
    pub(crate) by_name: BTreeMap<Vec<u8>, Arc<AnyProfile>>,
}

impl Profiles {
    /// No profile.
    pub(crate) fn new(alloc: Global) -> Profiles
        ensures { policy_in result ≡ (λ name. None) }
    {
        Profiles {
            by_name: BTreeMap::new(alloc),
        }
    }

    /// The profile under a name.
    pub(crate) fn get(&self, name: &[u8]) -> Option<&Arc<AnyProfile>>
        ensures { option_map (λ profile. judge_shared profile.now) result ≡ policy_in self.now name.now }
    {
        self.by_name.get(name)
    }

    /// These with the changes made, the first of them first.
    pub(crate) fn after(
        &self,
        alloc: Global,
        changes: &[PolicyChange],
    ) -> Result<Profiles, AllocError>
        ensures { IfOk result (λ after. policy_in after ≡ after_deeds (policy_in self.now) (map deed_of changes.now)) }
    {
        let mut after = self.copied()?;
        for change in changes {
            after.make(alloc, change)?;
        }
        Ok(after)
    }

    /// The same shares under the same names.
    fn copied(&self) -> Result<Profiles, AllocError>
        ensures { IfOk result (λ copy. policy_in copy ≡ policy_in self.now) }
    {
        Ok(Profiles {
            by_name: self.by_name.clone()?,
        })
    }

    /// Makes a change.
    fn make(&mut self, alloc: Global, change: &PolicyChange) -> Result<(), AllocError>
        ensures { OnOk result (policy_in self.new ≡ after_deed (policy_in self.old) (deed_of change.now)) }
    {
        match change {
            PolicyChange::Replace(name, profile) => {
                let name = Vec::from_slice(alloc, name)?;
                self.by_name.insert(name, Arc::try_clone(profile)?)?;
            }
            PolicyChange::Remove(name) => {
                self.by_name.remove(name.as_slice());
            }
        }
        Ok(())
    }
}
