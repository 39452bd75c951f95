//! A bench over a tree in one thread.
ghost use Rattle.std.specs.Prelude.{◌≤◌};
ghost use Rattle.names.specs.Limits.{longest_path};

use mediation::Policy;
use path_lookup::{NAME_ROOM, Scratch};
use plain_tree::PlainTree;
use std::alloc::Global;

/// A tree and the published profiles, with the room that walks and names need.
#[derive(Drop)]
pub struct TreeBench<T> {
    pub(crate) alloc: Global,
    pub(crate) tree: T,
    pub(crate) policy: Policy,
    pub(crate) scratch: Scratch,
    // The name that was judged last is at the front.
    pub(crate) name: [u8; NAME_ROOM],
    pub(crate) name_length: usize,
    ghost fits: { name_length ≤ longest_path },
}

/// A bench over a tree in plain memory.
pub type PlainBench = TreeBench<PlainTree>;
