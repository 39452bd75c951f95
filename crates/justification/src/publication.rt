//! What the policy of a version publishes.
ghost use Rattle.std.specs.Prelude.{◌≡◌, ◌<◌, MatchOption, length, map};
ghost use Rattle.std.specs.Option.{option_map};
ghost use Rattle.mediation.specs.Deeds.{Policy, after_deed, policy_after};
ghost use Rattle.mediation.specs.PolicyChanges.{deed_of};
ghost use Rattle.mediation.specs.Profiles.{judge_of};
ghost use Rattle.justification.specs.Versions.{IsPublishedAt};

use matcher::{AnyProfile, PolicyChange};

/// What is published under a name after the first `version` changes, if there are that many.
pub(crate) fn published_at<'a>(
    changes: &'a [PolicyChange],
    version: u64,
    name: &[u8],
) -> Option<Option<&'a AnyProfile>>
    ensures { MatchOption result (length changes.now < version)
        (λ profile. IsPublishedAt (map deed_of changes.now) version name.now (option_map (λ p. judge_of p.now) profile)) }
{
    if version > changes.len() as u64 {
        return None;
    }
    Some(published(&changes[..version as usize], name))
}

/// What is published under a name after these changes. The last one that is about the name decides, so they are read backwards up
/// to that one.
fn published<'a>(changes: &'a [PolicyChange], name: &[u8]) -> Option<&'a AnyProfile>
    ensures { option_map (λ p. judge_of p.now) result ≡ policy_after (map deed_of changes.now) name.now }
{
    let mut rest = changes;
    while let Some((change, before)) = rest.split_last() {
        if let Some(profile) = published_by(change, name) {
            return profile;
        }
        rest = before;
    }
    None
}

/// What is published under a name after a change, if the change is about it.
fn published_by<'a>(change: &'a PolicyChange, name: &[u8]) -> Option<Option<&'a AnyProfile>>
    ensures { MatchOption result
        ((policy : Policy) → after_deed policy (deed_of change.now) name.now ≡ policy name.now)
        (λ profile. (policy : Policy) → after_deed policy (deed_of change.now) name.now ≡ option_map (λ p. judge_of p.now) profile) }
{
    match change {
        PolicyChange::Replace(own, new) if own.as_slice() == name => Some(Some(&**new)),
        PolicyChange::Remove(own) if own.as_slice() == name => Some(None),
        PolicyChange::Replace(_, _) | PolicyChange::Remove(_) => None,
    }
}
