//! Answers to opens.
use names::{Errno, Verdict};
use path_session::Answer;

/// The verdict on the name of a node in the tree of one version, by the policy of another.
pub fn judged(verdict: Verdict, node: u64, tree_version: u64, policy_version: u64) -> Answer {
    Answer::Judged {
        verdict,
        node,
        tree_version,
        policy_version,
    }
}

/// An open that fails in the tree of a version.
pub fn failed(errno: Errno, tree_version: u64) -> Answer {
    Answer::Failed {
        errno,
        tree_version,
    }
}
