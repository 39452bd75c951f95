//! Reading where the publisher is held exclusively.
ghost use Rattle.std.specs.Prelude.{◌≡◌, ◌+◌, IfOk, OnOk, OnErr, length};
ghost use Rattle.std.specs.Option.{option_map};
ghost use Rattle.mediation.specs.Deeds.{policy_after};
ghost use Rattle.mediation.specs.PolicyChanges.{judge_shared};
ghost use Rattle.profile_registry.specs.Views.{IsUnansweredWith};

use crate::faults::NoEntry;
use crate::publisher::Publisher;
use crate::reader::PolicyReader;
use matcher::AnyProfile;
use std::sync::Arc;

impl PolicyReader {
    /// The profile under a name, and the policy's version, by all that this publisher has published, and no more: the reader
    /// learns that first, and nothing is published meanwhile. It isn't answered either where no place is free for a `Told`; each
    /// refusal is counted.
    pub fn get_with(
        &mut self,
        publisher: &mut Publisher,
        name: &[u8],
    ) -> Result<(Option<Arc<AnyProfile>>, u64), NoEntry>
        ensures same { publisher.new ≡ publisher.old }
        ensures seen { OnOk result (self.new.seen ≡ publisher.old.published) }
        ensures profile { IfOk result (λ found. option_map judge_shared found.0 ≡ policy_after publisher.old.published name.now) }
        ensures version { IfOk result (λ found. found.1 ≡ length publisher.old.published) }
        ensures learned { OnOk result (self.new.learned ≡ publisher.old.published) }
        ensures ok { OnOk result ((self.new.entries ≡ 1) × (self.new.refused ≡ self.old.refused)) }
        ensures err { OnErr result (IsUnansweredWith publisher.old.published self.old self.new name.now) }
    {
        let Ok(told) = publisher.tell() else {
            self.refusals = self.refusals.and_one();
            return Err(NoEntry);
        };
        self.learn(told);
        let (profile, version) = self.get(name)?;
        // The reader has seen this publisher's list, and maybe more of it; equal versions mean that it is no more.
        if version != publisher.version() {
            self.refusals = self.refusals.and_one();
            return Err(NoEntry);
        }
        Ok((profile, version))
    }
}
