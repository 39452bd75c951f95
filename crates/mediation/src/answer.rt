//! The answers to opens and judged links.
ghost use Rattle.mediation.specs.Answers.{IsAnswerTo};

use crate::opens::Judged;
use names::{Errno, Verdict};
use rule_judge::LinkVerdict;

/// The outcome of an open. The one who answers keeps the name that was judged.
#[derive(Clone, Copy, Debug, PartialEq, Eq)]
pub enum Answer {
    /// The verdict on the name of the file that was reached.
    Judged {
        verdict: Verdict,
        node: u64,
        tree_version: u64,
        policy_version: u64,
    },
    /// No file was reached, or none that can be judged.
    Failed {
        errno: Errno,
        tree_version: u64,
    },
    /// The profile isn't published.
    NoProfile {
        policy_version: u64,
    },
}

/// The answer to an open by a published profile that ended so, in the tree and by the policy of these versions; and the length of
/// the name that was judged, which is 0 if none was.
pub fn answer_to_open(
    opened: Result<Judged, Errno>,
    tree_version: u64,
    policy_version: u64,
) -> (Answer, usize)
    ensures { IsAnswerTo opened tree_version policy_version result.0 result.1 }
{
    match opened {
        Ok(file) => {
            let answer = Answer::Judged {
                verdict: file.verdict,
                node: file.node,
                tree_version,
                policy_version,
            };
            (answer, file.name_length)
        }
        Err(errno) => {
            let answer = Answer::Failed {
                errno,
                tree_version,
            };
            (answer, 0)
        }
    }
}

/// The outcome of a judged link. The one who answers keeps the name of the new entry.
#[derive(Clone, Copy, Debug, PartialEq, Eq)]
pub enum LinkAnswer {
    /// The link was made: the node of the file, and the tree's new version.
    Linked {
        node: u64,
        tree_version: u64,
        policy_version: u64,
    },
    /// The profile doesn't allow the link, which wasn't made.
    NotAllowed {
        verdict: LinkVerdict,
        node: u64,
        tree_version: u64,
        policy_version: u64,
    },
    /// The link can't be made, or a name can't be judged.
    Failed {
        errno: Errno,
        tree_version: u64,
    },
    /// The profile isn't published.
    NoProfile {
        policy_version: u64,
    },
}
