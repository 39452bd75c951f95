//! The trail of an open through the trees of all versions.
ghost use Rattle.std.specs.Prelude.{◌≡◌, ◌↔◌, IfOk, IsTrue, MatchOption, map};
ghost use Rattle.directory_tree.specs.Tree.{Tree};
ghost use Rattle.mediation.specs.PolicyChanges.{deed_of};
ghost use Rattle.justification.specs.Justified.{Justified};
ghost use Rattle.justification.specs.Versions.{IsTreeAt};
ghost use Rattle.justification.specs.inner.Ends.{IsEnd};

use crate::Answer;
use crate::end::{End, is_failure, is_judged};
use crate::outcomes::ends_after;
use crate::publication::published_at;
use directory_tree::Change;
use matcher::PolicyChange;
use names::{NoMemory, Perms};
use std::alloc::Global;
use std::marker::Model;

/// The outcomes of opening one path, for the same permissions, after none of some changes of a tree, after the first, and so on.
/// To contracts it is the path, the permissions and the changes.
#[derive(Drop)]
pub struct Trail<'a> {
    path: &'a [u8],
    ask: Perms,
    changes: &'a [Change<'a>],
    // One for each version, up to the first change that is refused.
    ends: Vec<End>,
}

impl<'a> Model for Trail<'a> {
    ghost use Rattle.justification.specs.Opens.{Opens};

    ghost Value = { Opens };

    ghost use Rattle.justification.specs.inner.Ends.{AreEnds};

    ghost view = { λ t. record { path = t.path.now; ask = t.ask; changes = t.changes.now } };

    ghost invariant = { λ t. AreEnds t.changes.now t.path.now t.ask t.ends.items };
}

impl<'a> Trail<'a> {
    /// Makes the changes one after the other in a tree in plain memory, with room for an entry of each, and opens the path in
    /// between.
    pub fn new(
        alloc: Global,
        path: &'a [u8],
        ask: Perms,
        changes: &'a [Change<'a>],
    ) -> Result<Trail<'a>, NoMemory>
        ensures { IfOk result (λ trail. trail ≡ record { path = path.now; ask = ask; changes = changes.now }) }
    {
        let ends = ends_after(alloc, path, ask, changes)?;
        Ok(Trail {
            path,
            ask,
            changes,
            ends,
        })
    }

    /// The path that is opened.
    pub fn path(&self) -> &'a [u8]
        ensures { result.now ≡ self.now.path }
    {
        self.path
    }

    /// The changes of the tree.
    pub fn changes(&self) -> &'a [Change<'a>]
        ensures { result.now ≡ self.now.changes }
    {
        self.changes
    }

    /// Whether an answer to the open, by the profile of this name, is justified by the changes of the tree and by these changes of
    /// the policy. The latter are read backwards from the answer's version to the last that is about the name.
    pub fn justifies(&self, answer: &Answer, profile: &[u8], policy: &[PolicyChange]) -> bool
        ensures { IsTrue result
            ↔ Justified profile.now self.now.path self.now.ask self.now.changes (map deed_of policy.now) answer.now }
    {
        match answer {
            Answer::NoEntry => true,
            Answer::Busy { began, ended } => *began % 2 == 1 || ended != began,
            Answer::NoProfile { policy_version } => {
                let published = published_at(policy, *policy_version, profile);
                matches!(published, Some(None))
            }
            Answer::Failed {
                errno,
                tree_version,
            } => match self.end(*tree_version) {
                Some(end) => is_failure(end, *errno),
                None => false,
            },
            Answer::Judged {
                verdict,
                node,
                tree_version,
                policy_version,
            } => {
                let Some(Some(published)) = published_at(policy, *policy_version, profile) else {
                    return false;
                };
                match self.end(*tree_version) {
                    Some(end) => is_judged(end, published, self.ask, *node, *verdict),
                    None => false,
                }
            }
        }
    }

    /// The outcome of the open in the tree of a version, if there is one.
    fn end(&self, version: u64) -> Option<&End>
        ensures { MatchOption result ((t : Tree) → ¬ (IsTreeAt self.now.changes version t))
            (λ end. IsEnd self.now.changes version self.now.path self.now.ask end.now) }
    {
        if version < self.ends.len() as u64 {
            Some(&self.ends[version as usize])
        } else {
            None
        }
    }
}
