//! The trees that opens and links are judged in.
ghost use Rattle.std.specs.Prelude.{◌≡◌, ◌≤◌, IfOk, IfErr, OnOk, OnErr, IsOk, Ok, Err, length};
ghost use Rattle.names.specs.Limits.{longest_path};
ghost use Rattle.directory_tree.specs.Place.{named_place};
ghost use Rattle.directory_tree.specs.Plain.{Plain, tree_of, outcome, Accepted, Refused};
ghost use Rattle.mediation.specs.Judgments.{link_of};
ghost use Rattle.mediation.specs.Links.{judged_by_name};
ghost use Rattle.mediation.specs.Profiles.{judge_of};

use crate::links::JudgedLink;
use directory_tree::Change;
use matcher::AnyProfile;
use names::{Errno, Path};
use path_lookup::{NAME_ROOM, Scratch};

/// A directory tree that can be changed, tested and looked at, and knows all of itself.
///
/// It is seen as its capacity and the changes that were made, as a tree in plain memory is. `By` is the type that judges in the
/// tree. It is of the crate that writes the impl, so that the tree may be of another one.
pub trait JudgedTree<By> {
    ghost plain: { Self → Plain };

    // What only a change that is made changes.
    ghost State: { Type 0 };

    ghost state: { Self → State };

    // What no change changes.
    ghost Kept: { Type 0 };

    ghost kept: { Self → Kept };

    /// The number of changes that were made.
    fn version(&self) -> u64
        ensures { result ≡ length (plain self.now).history };

    /// Makes the change and returns the version that it makes, or the error number; then nothing is changed.
    fn apply(&mut self, change: &Change<'_>) -> Result<u64, Errno>
        ensures kept { kept self.new ≡ kept self.old }
        ensures ok { IfOk result (λ version. Accepted (plain self.old) (plain self.new) change.now version) }
        ensures same { OnErr result (state self.new ≡ state self.old) }
        ensures err { IfErr result (λ errno. Refused (plain self.old) (plain self.new) change.now errno) };

    /// Whether the change would be made, memory aside, or by which number it would be refused. Nothing is changed or
    /// allocated.
    fn test(&mut self, change: &Change<'_>) -> Result<(), Errno>
        ensures kept { kept self.new ≡ kept self.old }
        ensures same { (plain self.new ≡ plain self.old) × (state self.new ≡ state self.old) }
        ensures ok { OnOk result (IsOk (outcome (plain self.old) change.now)) }
        ensures err { IfErr result (λ errno. outcome (plain self.old) change.now ≡ Err errno) };

    /// Judges a link by its names, as [`judge_names`](crate::judge_names) does, or returns the error number.
    fn judge_names(
        &mut self,
        profile: &AnyProfile,
        old: &Path<'_>,
        new: &Path<'_>,
        scratch: &mut Scratch,
        room: &mut [u8; NAME_ROOM],
    ) -> Result<JudgedLink, Errno>
        ensures kept { kept self.new ≡ kept self.old }
        ensures same { (plain self.new ≡ plain self.old) × (state self.new ≡ state self.old) }
        ensures fits { IfOk result (λ judged. judged.name_length ≤ longest_path) }
        ensures answer { IfOk result (λ judged. judged_by_name (judge_of profile.now) (tree_of (plain self.old)) old.now
            (named_place (tree_of (plain self.old)) new.now) ≡ Ok (link_of room.new judged)) }
        ensures fault { IfErr result (λ errno. judged_by_name (judge_of profile.now) (tree_of (plain self.old)) old.now
            (named_place (tree_of (plain self.old)) new.now) ≡ Err errno) };
}
