//! The outcome of an open in the tree of a version.
ghost use Rattle.std.specs.Prelude.{◌≡◌, ◌≤◌, IfOk, IfErr, Ok, Err, MatchOption};
ghost use Rattle.names.specs.Limits.{longest_path};
ghost use Rattle.directory_tree.specs.Apply.{tree_after};
ghost use Rattle.directory_tree.specs.Plain.{tree_of};
ghost use Rattle.directory_tree.specs.Tree.{Tree};
ghost use Rattle.mediation.specs.Judgments.{reached_of};
ghost use Rattle.mediation.specs.Opens.{reached};
ghost use Rattle.justification.specs.Versions.{IsTreeAt};
ghost use Rattle.justification.specs.inner.Reach.{IsReach, Fits};

use directory_tree::Change;
use mediation::{Reached, reach_file};
use names::{Errno, NoMemory, Perms};
use path_lookup::{NAME_ROOM, Scratch, WalkFault};
use plain_tree::PlainTree;
use std::alloc::Global;

/// The outcome of an open.
#[derive(Clone, Copy, Debug, PartialEq, Eq)]
pub(crate) enum Reach {
    /// There is no such version of the tree.
    NoTree,
    /// No file is reached that can be judged.
    Failed(Errno),
    /// This file is reached.
    File(Reached),
}

/// The outcome of an open in the tree after the first `version` changes. The name of the file goes to the front of `room`.
pub(crate) fn reach_at(
    alloc: Global,
    changes: &[Change<'_>],
    version: u64,
    path: &[u8],
    ask: Perms,
    room: &mut [u8; NAME_ROOM],
) -> Result<Reach, NoMemory>
    ensures fits { IfOk result Fits }
    ensures reach { IfOk result (IsReach changes.now version path.now ask room.new) }
{
    match tree_at(alloc, changes, version)? {
        Some(mut tree) => match reach_in(&mut tree, path, ask, room) {
            Ok(file) => Ok(Reach::File(file)),
            Err(errno) => Ok(Reach::Failed(errno)),
        },
        None => Ok(Reach::NoTree),
    }
}

/// The file that an open reaches in a tree, or the reason why there is none.
fn reach_in(
    tree: &mut PlainTree,
    path: &[u8],
    ask: Perms,
    room: &mut [u8; NAME_ROOM],
) -> Result<Reached, Errno>
    ensures fits { IfOk result (λ file. file.name_length ≤ longest_path) }
    ensures ok { IfOk result (λ file. reached (tree_of tree.old) path.now ask ≡ Ok (reached_of room.new file)) }
    ensures err { IfErr result (λ errno. reached (tree_of tree.old) path.now ask ≡ Err errno) }
{
    match reach_file(tree, path, ask, &mut Scratch::new(), room) {
        Ok(file) => Ok(file),
        Err(WalkFault::Refused(errno)) => Err(errno),
        // A plain tree always sees its tree, and knows all of it.
        Err(WalkFault::Torn) => unreachable!(),
    }
}

/// The tree after the first `version` changes, if there are that many and each is accepted.
fn tree_at(
    alloc: Global,
    changes: &[Change<'_>],
    version: u64,
) -> Result<Option<PlainTree>, NoMemory>
    ensures { IfOk result (λ made. MatchOption made ((t : Tree) → ¬ (IsTreeAt changes.now version t))
        (λ tree. IsTreeAt changes.now version (tree_of tree))) }
{
    if version > changes.len() as u64 {
        return Ok(None);
    }
    tree_after(alloc, changes.len(), &changes[..version as usize])
}

/// The tree after these changes, if each is accepted.
fn tree_after(
    alloc: Global,
    capacity: usize,
    changes: &[Change<'_>],
) -> Result<Option<PlainTree>, NoMemory>
    ensures { IfOk result (λ made. MatchOption made ((t : Tree) → ¬ (tree_after capacity changes.now ≡ Ok t))
        (λ tree. tree_after capacity changes.now ≡ Ok (tree_of tree))) }
{
    let mut tree = PlainTree::new(alloc, capacity)?;
    for change in changes {
        match tree.apply(change) {
            Ok(_) => {}
            Err(errno) => match errno {
                Errno::ENOMEM => return Err(NoMemory),
                _ => return Ok(None),
            },
        }
    }
    Ok(Some(tree))
}
