//! The share of a profile that a session keeps from call to call.
ghost use Rattle.std.specs.Prelude.{◌≡◌, ◌+◌, IfOk, OnOk, OnErr, None, length};
ghost use Rattle.std.specs.Option.{option_map};
ghost use mathlib.Core.List.{IsPrefix};
ghost use Rattle.mediation.specs.Deeds.{policy_after};
ghost use Rattle.mediation.specs.PolicyChanges.{judge_shared};
ghost use Rattle.profile_registry.specs.Views.{IsUnanswered, IsUnansweredWith};
ghost use Rattle.path_session.specs.inner.Shares.{IsShareOf};

use matcher::AnyProfile;
use profile_registry::{News, NoEntry, PolicyReader, Publisher};
use std::sync::Arc;

/// What a session read last of the policy.
#[derive(Drop)]
pub(crate) struct Share {
    // `None` if the profile is of no known version.
    pub(crate) version: Option<u64>,
    // What was published at that version under the name of the session's profile, if anything was.
    pub(crate) profile: Option<Arc<AnyProfile>>,
}

impl Share {
    /// A share of nothing, of no known version.
    pub(crate) fn new() -> Share
        ensures { result.version ≡ None }
    {
        Share {
            version: None,
            profile: None,
        }
    }

    /// Reads the policy, and returns its version: the profile is then what is published under the name. If the version is the one
    /// that was read last, the share that is kept is of that profile, so no other is taken.
    pub(crate) fn read_policy(
        &mut self,
        reader: &mut PolicyReader,
        name: &[u8],
    ) -> Result<u64, NoEntry>
        requires { IsShareOf reader.old.seen name.now self.old.version self.old.profile }
        ensures kept { IsShareOf reader.new.seen name.now self.new.version self.new.profile }
        ensures seen { IsPrefix reader.old.seen reader.new.seen }
        ensures learned { reader.new.learned ≡ reader.old.learned }
        ensures profile { OnOk result (option_map judge_shared self.new.profile ≡ policy_after reader.new.seen name.now) }
        ensures version { IfOk result (λ version. version ≡ length reader.new.seen) }
        ensures ok { OnOk result ((reader.new.entries ≡ reader.old.entries + 1) × (reader.new.refused ≡ reader.old.refused)) }
        ensures err { OnErr result (IsUnanswered reader.old reader.new name.now
            × (reader.new.refused ≡ reader.old.refused + 1)) }
    {
        let (news, version) = reader.get_since(name, self.version)?;
        if let News::Profile(profile) = news {
            self.profile = profile;
            self.version = Some(version);
        }
        Ok(version)
    }

    /// Reads the policy by all that the publisher has published, and no more, and returns its version.
    pub(crate) fn read_published(
        &mut self,
        reader: &mut PolicyReader,
        publisher: &mut Publisher,
        name: &[u8],
    ) -> Result<u64, NoEntry>
        ensures same { publisher.new ≡ publisher.old }
        ensures kept { IsShareOf reader.new.seen name.now self.new.version self.new.profile }
        ensures longer { IsPrefix reader.old.seen publisher.old.published → IsPrefix reader.old.seen reader.new.seen }
        ensures learned { IsPrefix reader.old.learned publisher.old.published → IsPrefix reader.new.learned publisher.old.published }
        ensures all_learned { OnOk result (reader.new.learned ≡ publisher.old.published) }
        ensures seen { OnOk result (reader.new.seen ≡ publisher.old.published) }
        ensures profile { OnOk result (option_map judge_shared self.new.profile ≡ policy_after publisher.old.published name.now) }
        ensures version { IfOk result (λ version. version ≡ length publisher.old.published) }
        ensures ok { OnOk result ((reader.new.entries ≡ 1) × (reader.new.refused ≡ reader.old.refused)) }
        ensures err { OnErr result (IsUnansweredWith publisher.old.published reader.old reader.new name.now) }
    {
        // What the publisher reports replaces what the reader has seen, so earlier versions are unknown from then on.
        self.version = None;
        let (profile, version) = reader.get_with(publisher, name)?;
        self.profile = profile;
        self.version = Some(version);
        Ok(version)
    }
}
