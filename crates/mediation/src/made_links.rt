//! A judged link, made in any tree.
ghost use Rattle.std.specs.Prelude.{◌≡◌, ◌≤◌, ℕ, List, IfOk, IfErr, OnOk, OnErr, IsOk, Ok, Err, Some, length, take};
ghost use Rattle.names.specs.Limits.{longest_path};
ghost use Rattle.directory_tree.specs.declared.change.Change.TheVariants.{Link};
ghost use Rattle.directory_tree.specs.Plain.{outcome};
ghost use Rattle.mediation.specs.Answers.{link_answered, name_linked, UnlessMade};
ghost use Rattle.mediation.specs.Deeds.{Deed};
ghost use Rattle.mediation.specs.History.{history_of, after_link};
ghost use Rattle.mediation.specs.Judgments.{link_of};
ghost use Rattle.mediation.specs.Links.{link_judged, answer_by_verdict, IsMade};
ghost use Rattle.mediation.specs.Links.{link_answered as answer_by};
ghost use Rattle.mediation.specs.Profiles.{judge_of};
ghost use Rattle.mediation.specs.inner.LinkOutcomes.{settled};

use crate::answer::LinkAnswer;
use crate::links::JudgedLink;
use crate::tree::JudgedTree;
use directory_tree::{Change, links_are_found, plain_trees_are_well_formed};
use matcher::AnyProfile;
use names::{Errno, NoMemory, Path};
use path_lookup::{NAME_ROOM, Scratch};
use rule_judge::LinkVerdict;

/// Makes a hard link if this profile, which is from this version of the policy, allows it (apparmor.d(5), "Link rules";
/// link(2)). Returns the answer, and the length of the name that was judged, which goes to the front of `room`; it is 0 if none
/// was.
///
/// A link that the tree refuses fails with the tree's reason, before the profile is asked. Only a link that is made allocates.
pub fn link_by<By, T: JudgedTree<By>>(
    tree: &mut T,
    profile: &AnyProfile,
    policy_version: u64,
    old: &[u8],
    new: &[u8],
    scratch: &mut Scratch,
    room: &mut [u8; NAME_ROOM],
) -> Result<(LinkAnswer, usize), NoMemory>
    ensures kept { T.kept tree.new ≡ T.kept tree.old }
    ensures same { IfOk result (λ linked. UnlessMade linked.0 (T.state tree.new ≡ T.state tree.old)) }
    ensures fits { IfOk result (λ linked. linked.1 ≤ longest_path) }
    ensures ok { IfOk result (λ linked. link_answered (take linked.1 room.new) linked.0
        ≡ answer_by (T.plain tree.old) policy_version old.now new.now (Some (judge_of profile.now))) }
    ensures name { IfOk result (λ linked. take linked.1 room.new
        ≡ name_linked (answer_by (T.plain tree.old) policy_version old.now new.now (Some (judge_of profile.now)))) }
    ensures history { (deeds : List Deed) → OnOk result (history_of (T.plain tree.new) deeds
        ≡ after_link (history_of (T.plain tree.old) deeds) old.now new.now
        (answer_by (T.plain tree.old) policy_version old.now new.now (Some (judge_of profile.now)))) }
    ensures err { OnErr result ((T.plain tree.new ≡ T.plain tree.old) × (T.state tree.new ≡ T.state tree.old)
        × IsMade (answer_by (T.plain tree.old) policy_version old.now new.now (Some (judge_of profile.now)))) }
{
    let tree_version = tree.version();
    match judge_tested(tree, profile, old, new, scratch, room) {
        Ok((change, judged)) => {
            let answer = settle(tree, &change, &judged, policy_version)?;
            Ok((answer, judged.name_length))
        }
        Err(errno) => {
            let answer = LinkAnswer::Failed {
                errno,
                tree_version,
            };
            Ok((answer, 0))
        }
    }
}

/// Judges a link that the tree would take, or returns why it fails. Nothing is changed. The name of the new entry goes to the
/// front of `room`.
fn judge_tested<'a, By, T: JudgedTree<By>>(
    tree: &mut T,
    profile: &AnyProfile,
    old: &'a [u8],
    new: &'a [u8],
    scratch: &mut Scratch,
    room: &mut [u8; NAME_ROOM],
) -> Result<(Change<'a>, JudgedLink), Errno>
    ensures kept { T.kept tree.new ≡ T.kept tree.old }
    ensures same { (T.plain tree.new ≡ T.plain tree.old) × (T.state tree.new ≡ T.state tree.old) }
    ensures fits { IfOk result (λ tested. tested.1.name_length ≤ longest_path) }
    ensures change { IfOk result (λ tested. (tested.0 ≡ Link old.now new.now) × IsOk (outcome (T.plain tree.old) tested.0)) }
    ensures answer { IfOk result (λ tested. link_judged (T.plain tree.old) (judge_of profile.now) old.now new.now
        ≡ Ok (link_of room.new tested.1)) }
    ensures fault { IfErr result (λ errno. link_judged (T.plain tree.old) (judge_of profile.now) old.now new.now ≡ Err errno) }
{
    plain_trees_are_well_formed();
    links_are_found();
    let old = Path::check(old)?;
    let new = Path::check(new)?;
    let change = Change::Link(old, new);
    tree.test(&change)?;
    let Change::Link(old, new) = &change else {
        unreachable!();
    };
    let judged = tree.judge_names(profile, old, new, scratch, room)?;
    Ok((change, judged))
}

/// Makes a link that the tree would take, if its verdict is fine, and returns the answer.
fn settle<By, T: JudgedTree<By>>(
    tree: &mut T,
    change: &Change<'_>,
    judged: &JudgedLink,
    policy_version: u64,
) -> Result<LinkAnswer, NoMemory>
    requires { IsOk (outcome (T.plain tree.old) change.now) }
    ensures kept { T.kept tree.new ≡ T.kept tree.old }
    ensures same { IfOk result (λ answer. UnlessMade answer (T.state tree.new ≡ T.state tree.old)) }
    ensures tree { OnOk result (T.plain tree.new ≡ settled (T.plain tree.old) change.now judged.now.verdict) }
    ensures answer { IfOk result (λ answer. (room : List ℕ) → link_answered (take judged.now.name_length room) answer
        ≡ answer_by_verdict (link_of room judged.now) (length (T.plain tree.old).history) policy_version judged.now.verdict) }
    ensures err { OnErr result ((T.plain tree.new ≡ T.plain tree.old) × (T.state tree.new ≡ T.state tree.old)
        × (judged.now.verdict ≡ LinkVerdict.Fine)) }
{
    match judged.verdict {
        LinkVerdict::Fine => match tree.apply(change) {
            Ok(tree_version) => Ok(LinkAnswer::Linked {
                node: judged.node,
                tree_version,
                policy_version,
            }),
            // The tree would take the link, so that only memory can be lacking.
            Err(_) => Err(NoMemory),
        },
        LinkVerdict::Refused(_) | LinkVerdict::Wider { .. } => Ok(LinkAnswer::NotAllowed {
            verdict: judged.verdict,
            node: judged.node,
            tree_version: tree.version(),
            policy_version,
        }),
    }
}
