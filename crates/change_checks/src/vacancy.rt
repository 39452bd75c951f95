//! The tests of changes that make an entry: that of a new node, or one more entry of a file.
ghost use Rattle.std.specs.Prelude.{◌≡◌, ◌≤◌, Bool, List, ℕ, OnOk, IfOk, IfErr, Ok, None, Some, length, true};
ghost use Rattle.directory_tree.specs.declared.node.Kind.TheVariants as kind;
ghost use Rattle.directory_tree.specs.declared.node.NodeKind.{NodeKind};
ghost use Rattle.directory_tree.specs.Tree.{Entry, find};
ghost use Rattle.directory_tree.specs.Apply.{make, link, link_to, at_one, at_two, has_room};
ghost use Rattle.directory_tree.specs.Spots.{node_at, kind_at, child_of};
ghost use Rattle.path_lookup.specs.Target.{target_for};
ghost use Rattle.path_lookup.specs.WalkFaults.{IsFault};
ghost use Rattle.path_lookup.specs.World.{World, Narrows};
ghost use Rattle.change_checks.specs.Act.{kind_of_new, acted, IsTested, NamesOnly, Fits, FitsNode};

use crate::act::{Act, NewNode};
use crate::look::ChangeLook;
use crate::place::{Place, find_place, find_places};
use directory_tree::Kind;
use names::{Errno, Path};
use path_lookup::{EndSlash, Look, WalkFault};

/// Tests a new node (mkdir(2), open(2), symlink(2)). Room is tested last.
pub(crate) fn check_make<'a, L: ChangeLook>(
    look: &mut L,
    path: &Path<'a>,
    slash: EndSlash,
    node: &NewNode<'a>,
) -> Result<Act<'a, L::Entry>, WalkFault>
    requires { FitsNode node.now }
    ensures kept { L.kept look.new ≡ L.kept look.old }
    ensures narrows { Narrows (L.sees look.old) (L.sees look.new) }
    ensures keeps { (e : L.Entry) → L.knows look.old e → L.knows look.new e }
    ensures known { IfOk result (NamesOnly (L.knows look.new)) }
    ensures fits { IfOk result Fits }
    ensures acts { IfOk result (λ act. (w : World) → L.sees look.new w →
        at_one w.tree (target_for slash path.now) (make w.tree (has_room (L.capacity look.new) w.tree) (kind_of_new node.now))
        ≡ Ok (acted (λ e. L.means e w) w.tree act)) }
    ensures tested { IfOk result (λ act. (w : World) → L.sees look.new w → IsTested (λ e. L.means e w) w.tree (L.capacity look.new) act) }
    ensures fault { IfErr result (IsFault (L.lacks look.new) (L.sees look.new) (λ w.
        at_one w.tree (target_for slash path.now) (make w.tree (has_room (L.capacity look.new) w.tree) (kind_of_new node.now)))) }
{
    let place = find_place(look, path, slash)?;
    check_vacant(look, &place)?;
    Ok(Act::Make(place, *node))
}

/// Tests one more entry of a file (link(2)).
pub(crate) fn check_link<'a, L: ChangeLook>(
    look: &mut L,
    old: &Path<'a>,
    new: &Path<'a>,
) -> Result<Act<'a, L::Entry>, WalkFault>
    ensures kept { L.kept look.new ≡ L.kept look.old }
    ensures narrows { Narrows (L.sees look.old) (L.sees look.new) }
    ensures keeps { (e : L.Entry) → L.knows look.old e → L.knows look.new e }
    ensures known { IfOk result (NamesOnly (L.knows look.new)) }
    ensures fits { IfOk result Fits }
    ensures acts { IfOk result (λ act. (w : World) → L.sees look.new w →
        at_two w.tree (target_for EndSlash.Refused old.now) (target_for EndSlash.Refused new.now)
        (link w.tree (has_room (L.capacity look.new) w.tree))
        ≡ Ok (acted (λ e. L.means e w) w.tree act)) }
    ensures tested { IfOk result (λ act. (w : World) → L.sees look.new w → IsTested (λ e. L.means e w) w.tree (L.capacity look.new) act) }
    ensures fault { IfErr result (IsFault (L.lacks look.new) (L.sees look.new) (λ w.
        at_two w.tree (target_for EndSlash.Refused old.now) (target_for EndSlash.Refused new.now)
        (link w.tree (has_room (L.capacity look.new) w.tree)))) }
{
    let (from, to) = find_places(look, old, new)?;
    let file = find_file(look, &from)?;
    check_vacant(look, &to)?;
    Ok(Act::Link(file, to))
}

// Tests that an entry may be added at a place: there is none, and there is room for it.
fn check_vacant<L: ChangeLook>(look: &mut L, place: &Place<'_, L::Entry>) -> Result<(), WalkFault>
    requires { L.knows look.old place.now.directory }
    ensures kept { L.kept look.new ≡ L.kept look.old }
    ensures narrows { Narrows (L.sees look.old) (L.sees look.new) }
    ensures keeps { (e : L.Entry) → L.knows look.old e → L.knows look.new e }
    ensures free { OnOk result ((w : World) → L.sees look.new w → find w.tree.entries (node_at (L.means place.now.directory w))
        place.now.component.now ≡ None) }
    ensures room { OnOk result ((w : World) → L.sees look.new w → has_room (L.capacity look.new) w.tree ≡ true) }
    ensures fault_of_make { IfErr result (λ fault. (kind : World → NodeKind) → IsFault (L.lacks look.new) (L.sees look.new) (λ w.
        make w.tree (has_room (L.capacity look.new) w.tree) (kind w) (node_at (L.means place.now.directory w)) place.now.component.now)
        fault) }
    ensures fault_of_link { IfErr result (λ fault. (old : World → Entry) → IsFault (L.lacks look.new) (L.sees look.new) (λ w.
        link_to w.tree (has_room (L.capacity look.new) w.tree) (old w) (node_at (L.means place.now.directory w)) place.now.component.now
        (find w.tree.entries (node_at (L.means place.now.directory w)) place.now.component.now)) fault) }
{
    if look.child(place.directory, place.component)?.is_some() {
        return Err(WalkFault::Refused(Errno::EEXIST));
    }
    if look.has_room()? {
        Ok(())
    } else {
        Err(WalkFault::Refused(Errno::ENOSPC))
    }
}

// The entry of a file at a place: it may have one more.
fn find_file<L: Look>(look: &mut L, place: &Place<'_, L::Entry>) -> Result<L::Entry, WalkFault>
    requires { L.knows look.old place.now.directory }
    ensures kept { L.kept look.new ≡ L.kept look.old }
    ensures narrows { Narrows (L.sees look.old) (L.sees look.new) }
    ensures keeps { (e : L.Entry) → L.knows look.old e → L.knows look.new e }
    ensures known { IfOk result (L.knows look.new) }
    ensures there { IfOk result (λ file. (w : World) → L.sees look.new w →
        child_of w.tree (L.means place.now.directory w) place.now.component.now ≡ Some (L.means file w)) }
    ensures file { IfOk result (λ file. (w : World) → L.sees look.new w → kind_at (L.means file w) ≡ NodeKind.File) }
    ensures fault { IfErr result (λ fault. (room : World → Bool) (into : World → ℕ) (name : List ℕ) →
        IsFault (L.lacks look.new) (L.sees look.new)
        (λ w. link w.tree (room w) (node_at (L.means place.now.directory w)) place.now.component.now (into w) name) fault) }
{
    let Some(entry) = look.child(place.directory, place.component)? else {
        return Err(WalkFault::Refused(Errno::ENOENT));
    };
    match look.kind(entry)? {
        Kind::File => Ok(entry),
        Kind::Directory | Kind::Link => Err(WalkFault::Refused(Errno::EPERM)),
    }
}
