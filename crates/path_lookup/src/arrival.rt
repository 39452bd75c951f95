//! What one component of a path leads to.
ghost use Rattle.std.specs.Prelude.{◌≡◌, ◌∷◌, ℕ, List, Some, false, IfOk, IfErr, bytes_eq};
ghost use Rattle.directory_tree.specs.Components.{Step, step_of, dot, dot_dot};
ghost use Rattle.directory_tree.specs.Walk.{resolve, is_last};
ghost use Rattle.directory_tree.specs.Spots.{node_at, child_of};
ghost use Rattle.path_lookup.specs.World.{World, Narrows};
ghost use Rattle.path_lookup.specs.WalkFaults.{IsFault};
ghost use Rattle.path_lookup.specs.inner.Steps.{IsDirectory, ArrivesAt, arrival_entry};

use crate::fault::WalkFault;
use crate::look::Look;
use directory_tree::{Kind, Last};
use names::Errno;

/// What a component leads to.
pub(crate) enum Arrival<E: Copy> {
    /// A directory, from which a walk goes on.
    Directory(E),
    /// A symbolic link that is to be followed.
    Link(E),
    /// The end of the walk.
    End(E),
}

/// What a component leads to from a directory. `ends`: no component follows. Allocates nothing.
pub(crate) fn arrive<L: Look>(
    look: &mut L,
    directory: L::Entry,
    component: &[u8],
    last: Last,
    ends: bool,
) -> Result<Arrival<L::Entry>, WalkFault>
    requires known { L.knows look.old directory }
    requires directory { (w : World) → L.sees look.old w → IsDirectory w.tree (L.means directory w) }
    ensures kept { L.kept look.new ≡ L.kept look.old }
    ensures narrows { Narrows (L.sees look.old) (L.sees look.new) }
    ensures keeps { (e : L.Entry) → L.knows look.old e → L.knows look.new e }
    ensures known { IfOk result (λ arrival. L.knows look.new (arrival_entry arrival)) }
    ensures answer { IfOk result (λ arrival. (w : World) → L.sees look.new w → (links : ℕ) (xs : List Step) → is_last xs ≡ ends →
        let d = node_at (L.means directory w) in
        ArrivesAt L.means w last links d xs (resolve w.tree last links d (step_of component.now ∷ xs)) arrival) }
    ensures fault { IfErr result (λ fault. (links : ℕ) (xs : List Step) → is_last xs ≡ ends →
        IsFault (L.lacks look.new) (L.sees look.new)
        (λ w. resolve w.tree last links (node_at (L.means directory w)) (step_of component.now ∷ xs)) fault) }
{
    if component == b".".as_slice() {
        return Ok(Arrival::Directory(directory));
    }
    if component == b"..".as_slice() {
        // The root is its own parent.
        return Ok(Arrival::Directory(look.parent(directory)?.unwrap_or(directory)));
    }
    arrive_down(look, directory, component, last, ends)
}

/// What a component that is neither `.` nor `..` leads to from a directory: the entry that it names there. `ends`: no component
/// follows. Allocates nothing.
#[inline(always)]
pub(crate) fn arrive_down<L: Look>(
    look: &mut L,
    directory: L::Entry,
    component: &[u8],
    last: Last,
    ends: bool,
) -> Result<Arrival<L::Entry>, WalkFault>
    requires known { L.knows look.old directory }
    requires no_dot { bytes_eq component.now dot ≡ false }
    requires no_dot_dot { bytes_eq component.now dot_dot ≡ false }
    ensures kept { L.kept look.new ≡ L.kept look.old }
    ensures narrows { Narrows (L.sees look.old) (L.sees look.new) }
    ensures keeps { (e : L.Entry) → L.knows look.old e → L.knows look.new e }
    ensures known { IfOk result (λ arrival. L.knows look.new (arrival_entry arrival)) }
    ensures child { IfOk result (λ arrival. (w : World) → L.sees look.new w →
        child_of w.tree (L.means directory w) component.now ≡ Some (L.means (arrival_entry arrival) w)) }
    ensures answer { IfOk result (λ arrival. (w : World) → L.sees look.new w → (links : ℕ) (xs : List Step) → is_last xs ≡ ends →
        let d = node_at (L.means directory w) in
        ArrivesAt L.means w last links d xs (resolve w.tree last links d (step_of component.now ∷ xs)) arrival) }
    ensures fault { IfErr result (λ fault. (links : ℕ) (xs : List Step) → is_last xs ≡ ends →
        IsFault (L.lacks look.new) (L.sees look.new)
        (λ w. resolve w.tree last links (node_at (L.means directory w)) (step_of component.now ∷ xs)) fault) }
{
    let Some(entry) = look.child(directory, component)? else {
        return Err(WalkFault::Refused(Errno::ENOENT));
    };
    match look.kind(entry)? {
        Kind::Directory => Ok(Arrival::Directory(entry)),
        Kind::File if ends => Ok(Arrival::End(entry)),
        Kind::File => Err(WalkFault::Refused(Errno::ENOTDIR)),
        Kind::Link if ends && last == Last::Stay => Ok(Arrival::End(entry)),
        Kind::Link => Ok(Arrival::Link(entry)),
    }
}
