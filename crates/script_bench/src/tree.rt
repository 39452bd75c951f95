//! The trees that a bench may work on.
ghost use Rattle.std.specs.Prelude.{◌≡◌, ◌≤◌, ℕ, IfOk, IfErr, Ok, Err};
ghost use Rattle.names.specs.Limits.{longest_path};
ghost use Rattle.directory_tree.specs.Plain.{new_plain, tree_of};
ghost use Rattle.mediation.specs.Judgments.{judged_of};
ghost use Rattle.mediation.specs.Opens.{opened};
ghost use Rattle.mediation.specs.Profiles.{judge_of};

use crate::tree_bench::PlainBench;
use matcher::AnyProfile;
use mediation::{Judged, JudgedTree};
use names::{Errno, NoMemory, Perms};
use path_lookup::{NAME_ROOM, Scratch};
use std::alloc::Global;

/// A directory tree that a bench may begin with and work on.
pub trait BenchTree: JudgedTree<PlainBench> {
    // It may have room for this many entries.
    ghost may_hold: { ℕ → Type 0 };

    /// The root alone, with room for `capacity` entries.
    fn new(alloc: Global, capacity: usize) -> Result<Self, NoMemory>
        requires { may_hold capacity }
        ensures { IfOk result (λ tree. Self.plain tree ≡ new_plain capacity) };

    /// Judges the file that a path leads to, as [`mediation::judge_file`] does, or returns the error number.
    fn judge_file(
        &mut self,
        profile: &AnyProfile,
        path: &[u8],
        ask: Perms,
        scratch: &mut Scratch,
        room: &mut [u8; NAME_ROOM],
    ) -> Result<Judged, Errno>
        ensures same { Self.plain self.new ≡ Self.plain self.old }
        ensures fits { IfOk result (λ judged. judged.name_length ≤ longest_path) }
        ensures answer { IfOk result (λ judged. opened (tree_of (Self.plain self.old)) (judge_of profile.now) path.now ask
            ≡ Ok (judged_of room.new judged)) }
        ensures fault { IfErr result (λ errno. opened (tree_of (Self.plain self.old)) (judge_of profile.now) path.now ask
            ≡ Err errno) };
}
