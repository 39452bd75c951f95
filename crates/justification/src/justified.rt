//! The test of an answer.
ghost use Rattle.std.specs.Prelude.{◌≡◌, ◌↔◌, IfOk, IsTrue, map};
ghost use Rattle.names.specs.declared.errors.Errno.{Errno};
ghost use Rattle.mediation.specs.Judge.{verdict_by};
ghost use Rattle.mediation.specs.PolicyChanges.{deed_of};
ghost use Rattle.mediation.specs.Profiles.{judge_of};
ghost use Rattle.justification.specs.Justified.{Justified};
ghost use Rattle.justification.specs.inner.Reach.{Fits, IsFailure, IsFileOf};

use crate::answer::Answer;
use crate::publication::published_at;
use crate::reach::{Reach, reach_at};
use directory_tree::Change;
use matcher::{AnyProfile, PolicyChange};
use mediation::judge_name;
use names::{Errno, NoMemory, Perms, Verdict};
use path_lookup::NAME_ROOM;
use std::alloc::Global;

/// Whether an answer to an open is justified by the tree and the policy after the first changes of these lists, as many as the
/// answer's versions say. The tree is built anew, with room for an entry of each change.
pub fn justify(
    alloc: Global,
    answer: &Answer,
    profile: &[u8],
    path: &[u8],
    ask: Perms,
    changes: &[Change<'_>],
    policy: &[PolicyChange],
) -> Result<bool, NoMemory>
    ensures { IfOk result (λ holds. IsTrue holds
        ↔ Justified profile.now path.now ask changes.now (map deed_of policy.now) answer.now) }
{
    let mut room = [0; NAME_ROOM];
    match answer {
        Answer::NoEntry => Ok(true),
        Answer::Busy { began, ended } => Ok(*began % 2 == 1 || ended != began),
        Answer::NoProfile { policy_version } => {
            let published = published_at(policy, *policy_version, profile);
            Ok(matches!(published, Some(None)))
        }
        Answer::Failed {
            errno,
            tree_version,
        } => {
            let reach = reach_at(alloc, changes, *tree_version, path, ask, &mut room)?;
            Ok(is_failure(&reach, *errno))
        }
        Answer::Judged {
            verdict,
            node,
            tree_version,
            policy_version,
        } => {
            let Some(Some(published)) = published_at(policy, *policy_version, profile) else {
                return Ok(false);
            };
            let reach = reach_at(alloc, changes, *tree_version, path, ask, &mut room)?;
            Ok(is_judged(&reach, &room, published, ask, *node, *verdict))
        }
    }
}

/// Whether no file was reached, for this reason.
fn is_failure(reach: &Reach, errno: Errno) -> bool
    ensures { IsTrue result ↔ IsFailure reach.now errno }
{
    match reach {
        Reach::Failed(told) => *told == errno,
        Reach::NoTree | Reach::File(_) => false,
    }
}

/// Whether a file of this node was reached, and the profile says this of its name, which is at the front of `room`.
fn is_judged(
    reach: &Reach,
    room: &[u8; NAME_ROOM],
    profile: &AnyProfile,
    ask: Perms,
    node: u64,
    verdict: Verdict,
) -> bool
    requires { Fits reach.now }
    ensures { IsTrue result ↔ IsFileOf reach.now room.now
        (λ file. (file.node ≡ node) × (verdict_by (judge_of profile.now) file.name ask ≡ verdict)) }
{
    match reach {
        Reach::File(file) => {
            let told = judge_name(profile, &room[..file.name_length], ask);
            file.node == node && told == verdict
        }
        Reach::NoTree | Reach::Failed(_) => false,
    }
}
