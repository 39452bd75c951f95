//! How a change is taken into what is published.
ghost use Rattle.std.specs.Prelude.{◌≡◌, OnOk, OnErr};
ghost use Rattle.std.specs.FinMap.{insert, remove, empty};
ghost use Rattle.mediation.specs.PolicyChanges.{judge_shared, deed_of};
ghost use Rattle.profile_registry.specs.inner.Contents.{contents_of, with_profiles, with_change};
ghost use Rattle.profile_registry.specs.inner.Names.{profiles_after};

use crate::store::{Contents, Store};
use left_right::Absorb;
use matcher::{AnyProfile, PolicyChange};
use std::alloc::{AllocError, Global};
use std::collections::BTreeMap;
use std::sync::Arc;

impl Store {
    /// A store with nothing published.
    pub(crate) fn new(alloc: Global) -> Store
        ensures contents { contents_of result ≡ record { version = 0; profiles = empty } }
        ensures version { result.version ≡ 0 }
    {
        Store {
            alloc,
            profiles: BTreeMap::new(alloc),
            version: 0,
        }
    }

    /// Puts a share of a profile under a name.
    fn put(&mut self, name: &[u8], profile: &Arc<AnyProfile>) -> Result<(), AllocError>
        ensures ok { OnOk result (contents_of self.new ≡ with_profiles (contents_of self.old)
            (insert (contents_of self.old).profiles name.now (judge_shared profile.now))) }
        ensures err { OnErr result (contents_of self.new ≡ contents_of self.old) }
    {
        let name = Vec::from_slice(self.alloc, name)?;
        let profile = Arc::try_clone(profile)?;
        self.profiles.insert(name, profile)?;
        Ok(())
    }

    /// Removes what is under a name.
    fn clear(&mut self, name: &[u8])
        ensures { contents_of self.new ≡ with_profiles (contents_of self.old) (remove (contents_of self.old).profiles name.now) }
    {
        self.profiles.remove(name);
    }

    /// Makes a change of the profiles.
    fn change(&mut self, change: &PolicyChange) -> Result<(), AllocError>
        ensures ok { OnOk result (contents_of self.new ≡ with_profiles (contents_of self.old)
            (profiles_after (contents_of self.old).profiles (deed_of change.now))) }
        ensures err { OnErr result (contents_of self.new ≡ contents_of self.old) }
    {
        match change {
            PolicyChange::Replace(name, profile) => self.put(name, profile),
            PolicyChange::Remove(name) => {
                self.clear(name);
                Ok(())
            }
        }
    }
}

impl Absorb<PolicyChange> for Store {
    type State = Contents;

    ghost state = { contents_of };

    ghost applied = { with_change };

    fn absorb_first(&mut self, operation: &PolicyChange, _other: &Store) -> Result<(), AllocError> {
        // There are fewer than 2^60 changes, so that the sum fits.
        let version = self.version.checked_add(1).ok_or(AllocError)?;
        self.change(operation)?;
        self.version = version;
        Ok(())
    }
}
