//! The outcome of an open.
ghost use Rattle.std.specs.Prelude.{◌≡◌, ◌≤◌, ◌↔◌, IfOk, IsTrue};
ghost use Rattle.directory_tree.specs.Plain.{tree_of};
ghost use Rattle.mediation.specs.Judge.{verdict_by};
ghost use Rattle.mediation.specs.Profiles.{judge_of};
ghost use Rattle.justification.specs.inner.Ends.{IsEndIn, IsFailure, IsFileOf};

use matcher::AnyProfile;
use mediation::{judge_name, reach_file};
use names::{Errno, NoMemory, Perms, Verdict};
use path_lookup::{NAME_ROOM, Scratch, WalkFault};
use plain_tree::PlainTree;
use std::alloc::Global;

/// The outcome of an open in one tree.
#[derive(Drop)]
pub(crate) enum End {
    /// No file is reached that can be judged.
    Failed(Errno),
    /// This file is reached.
    File(File),
}

/// A file that is reached: its node, and its name in the tree.
#[derive(Drop)]
pub(crate) struct File {
    node: u64,
    name: Vec<u8>,
}

/// Finds the outcome of an open in a tree.
pub(crate) fn end_in(
    alloc: Global,
    tree: &mut PlainTree,
    path: &[u8],
    ask: Perms,
) -> Result<End, NoMemory>
    ensures kept { tree.new ≡ tree.old }
    ensures end { IfOk result (IsEndIn (tree_of tree.old) path.now ask) }
{
    let mut room = [0; NAME_ROOM];
    match reach_file(tree, path, ask, &mut Scratch::new(), &mut room) {
        Ok(file) => match Vec::from_slice(alloc, &room[..file.name_length]) {
            Ok(name) => Ok(End::File(File {
                node: file.node,
                name,
            })),
            Err(_) => Err(NoMemory),
        },
        Err(WalkFault::Refused(errno)) => Ok(End::Failed(errno)),
        // A plain tree always sees its tree, and knows all of it.
        Err(WalkFault::Torn) => unreachable!(),
    }
}

/// Whether no file is reached, for this reason.
pub(crate) fn is_failure(end: &End, errno: Errno) -> bool
    ensures { IsTrue result ↔ IsFailure end.now errno }
{
    match end {
        End::Failed(told) => *told == errno,
        End::File(_) => false,
    }
}

/// Whether a file of this node is reached, and the profile says this of its name.
pub(crate) fn is_judged(
    end: &End,
    profile: &AnyProfile,
    ask: Perms,
    node: u64,
    verdict: Verdict,
) -> bool
    ensures { IsTrue result ↔ IsFileOf end.now
        (λ file. (file.node ≡ node) × (verdict_by (judge_of profile.now) file.name ask ≡ verdict)) }
{
    match end {
        End::Failed(_) => false,
        End::File(file) => {
            let told = judge_name(profile, file.name.as_slice(), ask);
            file.node == node && told == verdict
        }
    }
}
