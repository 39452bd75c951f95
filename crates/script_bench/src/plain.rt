//! The tree in plain memory, as a bench works on it.
ghost use Rattle.std.specs.Prelude.{⊤};

use crate::tree::BenchTree;
use crate::tree_bench::PlainBench;
use directory_tree::{Change, plain_trees_are_well_formed};
use matcher::AnyProfile;
use mediation::{Judged, JudgedLink, JudgedTree, judge_file, judge_names};
use names::{Errno, NoMemory, Path, Perms};
use path_lookup::{NAME_ROOM, Scratch, WalkFault};
use plain_tree::PlainTree;
use std::alloc::Global;

impl JudgedTree<PlainBench> for PlainTree {
    ghost use Rattle.directory_tree.specs.Plain.{Plain};

    ghost plain = { λ tree. tree };

    ghost State = { Plain };

    ghost state = { λ tree. tree };

    ghost Kept = { ⊤ };

    ghost kept = { λ _. tt };

    fn version(&self) -> u64 {
        PlainTree::version(self)
    }

    fn apply(&mut self, change: &Change<'_>) -> Result<u64, Errno> {
        PlainTree::apply(self, change)
    }

    fn test(&mut self, change: &Change<'_>) -> Result<(), Errno> {
        PlainTree::test(self, change)
    }

    fn judge_names(
        &mut self,
        profile: &AnyProfile,
        old: &Path<'_>,
        new: &Path<'_>,
        scratch: &mut Scratch,
        room: &mut [u8; NAME_ROOM],
    ) -> Result<JudgedLink, Errno> {
        plain_trees_are_well_formed();
        match judge_names(self, profile, old, new, scratch, room) {
            Ok(judged) => Ok(judged),
            Err(fault) => match fault {
                WalkFault::Refused(errno) => Err(errno),
                // A plain tree always sees its tree, and knows all of it.
                WalkFault::Torn => unreachable!(),
            },
        }
    }
}

impl BenchTree for PlainTree {
    ghost may_hold = { λ _. ⊤ };

    fn new(alloc: Global, capacity: usize) -> Result<PlainTree, NoMemory> {
        PlainTree::new(alloc, capacity)
    }

    fn judge_file(
        &mut self,
        profile: &AnyProfile,
        path: &[u8],
        ask: Perms,
        scratch: &mut Scratch,
        room: &mut [u8; NAME_ROOM],
    ) -> Result<Judged, Errno> {
        plain_trees_are_well_formed();
        match judge_file(self, profile, path, ask, scratch, room) {
            Ok(judged) => Ok(judged),
            Err(fault) => match fault {
                WalkFault::Refused(errno) => Err(errno),
                // A plain tree always sees its tree, and knows all of it.
                WalkFault::Torn => unreachable!(),
            },
        }
    }
}
