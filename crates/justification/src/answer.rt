ghost use Rattle.std.specs.Prelude.{◌≡◌};

use names::{Errno, Verdict};

/// The answer to an open where the tree and the policy may change meanwhile.
#[derive(Clone, Copy, Debug, PartialEq, Eq)]
pub enum Answer {
    /// The verdict on the name that the file had in the tree of that version, by the policy of that version.
    Judged {
        verdict: Verdict,
        node: u64,
        tree_version: u64,
        policy_version: u64,
    },
    /// In the tree of that version no file was reached, or none that can be judged.
    Failed {
        errno: Errno,
        tree_version: u64,
    },
    /// In the policy of that version the profile isn't published.
    NoProfile {
        policy_version: u64,
    },
    /// The tree was being changed: the count when the walk began was odd, or another than the count when it ended.
    Busy {
        began: u64,
        ended: u64,
    },
    /// The entry into the policy was refused; nothing was read.
    NoEntry,
}

impl From<mediation::Answer> for Answer {
    ghost use Rattle.justification.specs.Answers.{of_still};

    ghost from_gives = { λ still answer. answer ≡ of_still still };

    fn from(still: mediation::Answer) -> Answer {
        match still {
            mediation::Answer::Judged {
                verdict,
                node,
                tree_version,
                policy_version,
            } => Answer::Judged {
                verdict,
                node,
                tree_version,
                policy_version,
            },
            mediation::Answer::Failed {
                errno,
                tree_version,
            } => Answer::Failed {
                errno,
                tree_version,
            },
            mediation::Answer::NoProfile { policy_version } => Answer::NoProfile { policy_version },
        }
    }
}
