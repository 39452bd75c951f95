//! A call's first steps.
ghost use Rattle.std.specs.Prelude.{◌≡◌, ℕ, List, IfOk, IfErr, OnErr, IsSome, length};
ghost use Rattle.event_machine.specs.Takes.{after_policy};
ghost use Rattle.mediation.specs.Deeds.{policy_after};
ghost use Rattle.open_session.specs.inner.StageData.{call_of, stage_of, IsStanding};

use crate::call::{Call, Policed};
use crate::stage::Stage;
use mediation::Policy;
use names::{NoMemory, Perms};
use std::alloc::{AllocError, Global};

impl Call {
    /// A call, with copies of the profile's name and of the path.
    pub(crate) fn new(
        alloc: Global,
        profile: &[u8],
        path: &[u8],
        ask: Perms,
    ) -> Result<Call, AllocError>
        ensures { IfOk result (λ call. call_of call ≡ record { profile = profile.now; path = path.now; ask = ask }) }
    {
        Ok(Call {
            profile: Vec::from_slice(alloc, profile)?,
            path: Vec::from_slice(alloc, path)?,
            ask,
        })
    }

    /// The stage of the call after it has read the policy, or the call as it was if memory is refused for a share of its profile.
    pub(crate) fn after_policy(self, policy: &Policy) -> Result<Stage, Call>
        ensures ok { IfOk result (λ stage. stage_of stage ≡ after_policy (call_of self) (length policy.now)
            (policy_after policy.now self.profile.items)) }
        ensures stands { IfOk result (λ stage. (capacity : ℕ) (room : List ℕ) → IsStanding capacity room stage) }
        ensures err { IfErr result (λ call. call ≡ self) }
        ensures memory { OnErr result (IsSome (policy_after policy.now self.profile.items)) }
    {
        let policy_version = policy.version();
        match policy.share(&self.profile) {
            Ok(Some(profile)) => Ok(Stage::Policed(Policed {
                call: self,
                policy_version,
                profile,
            })),
            Ok(None) => Ok(Stage::Unpublished(self, policy_version)),
            Err(NoMemory) => Err(self),
        }
    }
}
