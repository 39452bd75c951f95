//! The published profiles.
ghost use Rattle.std.specs.Prelude.{◌≡◌, ◌+◌, ◌<◌, ◌^◌, ◌++◌, [], IfOk, OnErr, IsSome, length, map};
ghost use Rattle.std.specs.Option.{option_map};
ghost use Rattle.mediation.specs.Deeds.{policy_after};
ghost use Rattle.mediation.specs.PolicyChanges.{deed_of, judge_shared};
ghost use Rattle.mediation.specs.Profiles.{judge_of};

use crate::published_profiles::Profiles;
use directory_tree::History;
use matcher::{AnyProfile, PolicyChange};
use names::NoMemory;
use std::alloc::Global;
use std::marker::Model;
use std::sync::Arc;

/// The profiles that are published, by their names. Contracts see all changes that were made, the first of them first.
#[derive(Drop)]
pub struct Policy {
    alloc: Global,
    profiles: Profiles,
    // How many changes were made.
    version: u64,
    changes: History<PolicyChange>,
}

impl Model for Policy {
    ghost use Rattle.std.specs.Prelude.{List, map};
    ghost use Rattle.mediation.specs.Deeds.{Deed};
    ghost use Rattle.mediation.specs.PolicyChanges.{deed_of};

    ghost Value = { List Deed };

    ghost use Rattle.mediation.specs.inner.HeldProfiles.{Holds};

    ghost view = { λ p. map deed_of p.changes.events };

    ghost invariant = { λ p. Holds p.profiles p.version (map deed_of p.changes.events) };
}

impl Policy {
    /// Nothing is published.
    pub fn new(alloc: Global) -> Policy
        ensures { result ≡ [] }
    {
        Policy {
            alloc,
            profiles: Profiles::new(alloc),
            version: 0,
            changes: History::new(),
        }
    }

    /// How many changes were made.
    pub fn version(&self) -> u64
        ensures { result ≡ length self.now }
    {
        self.version
    }

    /// The profile under a name, if one is published.
    pub fn get(&self, name: &[u8]) -> Option<&AnyProfile>
        ensures { option_map (λ profile. judge_of profile.now) result ≡ policy_after self.now name.now }
    {
        match self.profiles.get(name) {
            Some(profile) => Some(&**profile),
            None => None,
        }
    }

    /// A share of the profile under a name, if one is published. It stays as it is, whatever is published later. It is refused
    /// only where a profile is published, of which no share can be made.
    pub fn share(&self, name: &[u8]) -> Result<Option<Arc<AnyProfile>>, NoMemory>
        ensures ok { IfOk result (λ profile. option_map judge_shared profile ≡ policy_after self.now name.now) }
        ensures err { OnErr result (IsSome (policy_after self.now name.now)) }
    {
        match self.profiles.get(name) {
            Some(profile) => match Arc::try_clone(profile) {
                Ok(share) => Ok(Some(share)),
                Err(_) => Err(NoMemory),
            },
            None => Ok(None),
        }
    }

    /// Makes these changes, the first of them first, and answers the policy's new version. Where memory is refused, none of
    /// them is made.
    pub fn publish(&mut self, changes: &[PolicyChange]) -> Result<u64, NoMemory>
        requires { length self.old + length changes.now < 2 ^ 60 }
        ensures ok { IfOk result (λ version. (self.new ≡ self.old ++ map deed_of changes.now) × (version ≡ length self.new)) }
        ensures err { OnErr result (self.new ≡ self.old) }
    {
        let Ok(profiles) = self.profiles.after(self.alloc, changes) else {
            return Err(NoMemory);
        };
        self.profiles = profiles;
        self.version += changes.len() as u64;
        self.changes = self.changes.and_all(changes);
        Ok(self.version)
    }
}
