//! What a reader takes from the store.
ghost use Rattle.std.specs.Prelude.{◌≡◌, ◌≢◌, IfOk, OnErr, IsSome, Some};
ghost use Rattle.std.specs.Option.{option_map};
ghost use Rattle.mediation.specs.PolicyChanges.{judge_shared};
ghost use Rattle.profile_registry.specs.News.{IsNews};
ghost use Rattle.profile_registry.specs.Rule.{policy_of};

use crate::faults::NoEntry;
use crate::news::News;
use crate::store::Store;
use matcher::AnyProfile;
use std::sync::Arc;

impl Store {
    /// How many changes made the store.
    pub(crate) fn version(&self) -> u64
        ensures { result ≡ self.now.version }
    {
        self.version
    }

    /// A share of the profile under a name, if there is one. It is refused only where there is one, of which no share can be made.
    pub(crate) fn profile(&self, name: &[u8]) -> Result<Option<Arc<AnyProfile>>, NoEntry>
        ensures ok { IfOk result (λ profile. option_map judge_shared profile ≡ policy_of self.now name.now) }
        ensures err { OnErr result (IsSome (policy_of self.now name.now)) }
    {
        match self.profiles.get(name) {
            Some(profile) => match Arc::try_clone(profile) {
                Ok(share) => Ok(Some(share)),
                Err(_) => Err(NoEntry),
            },
            None => Ok(None),
        }
    }

    /// What is under a name, for a caller that knows what was at one version.
    pub(crate) fn news(&self, name: &[u8], known: Option<u64>) -> Result<News, NoEntry>
        ensures ok { IfOk result (IsNews (policy_of self.now name.now) known self.now.version) }
        ensures err { OnErr result (IsSome (policy_of self.now name.now) × (known ≢ Some self.now.version)) }
    {
        if known == Some(self.version) {
            return Ok(News::Same);
        }
        match self.profile(name) {
            Ok(profile) => Ok(News::Profile(profile)),
            Err(fault) => Err(fault),
        }
    }
}
