//! The answer to a walk that has read the count again.
ghost use Rattle.std.specs.Prelude.{◌≡◌, ◌+◌};
ghost use Rattle.open_session.specs.inner.StageData.{IsEnded, IsTold};

use crate::walk::{Checked, Next};
use justification::Answer;
use mediation::judge_name;
use path_lookup::NAME_ROOM;
use row_rule::version_between;

/// An answer, and the length of the name that it judges.
#[derive(Clone, Copy)]
pub(crate) struct Told {
    pub(crate) answer: Answer,
    pub(crate) name_length: usize,
}

impl Checked {
    /// The answer. The name that it judges is at the front of `room`.
    pub(crate) fn told(&self, room: &[u8; NAME_ROOM]) -> Told
        requires { IsEnded self.now.walk.words.0 room.now self.now }
        ensures { IsTold self.now.walk.words.0 room.now self.now result }
    {
        match version_between(self.walk.noted, self.last) {
            Ok(tree_version) => self.told_of(tree_version, room),
            Err(busy) => Told {
                answer: Answer::Busy {
                    began: busy.began,
                    ended: busy.ended,
                },
                name_length: 0,
            },
        }
    }

    /// The answer at a version of the tree, for a walk that wasn't disturbed.
    fn told_of(&self, tree_version: u64, room: &[u8; NAME_ROOM]) -> Told
        requires ended { IsEnded self.now.walk.words.0 room.now self.now }
        requires noted { self.now.walk.noted ≡ tree_version + tree_version }
        requires last { self.now.last ≡ self.now.walk.noted }
        ensures { IsTold self.now.walk.words.0 room.now self.now result }
    {
        let policed = &self.walk.policed;
        match self.walk.next {
            Next::Reached(file) => Told {
                answer: Answer::Judged {
                    verdict: judge_name(
                        &policed.profile,
                        &room[..file.name_length],
                        policed.call.ask,
                    ),
                    node: file.node,
                    tree_version,
                    policy_version: policed.policy_version,
                },
                name_length: file.name_length,
            },
            Next::Refused(errno) => Told {
                answer: Answer::Failed {
                    errno,
                    tree_version,
                },
                name_length: 0,
            },
            // The count was even and is unchanged, so the words agree with the row, which encodes a tree.
            Next::Read(_) | Next::Disturbed | Next::Torn => unreachable!(),
        }
    }
}
