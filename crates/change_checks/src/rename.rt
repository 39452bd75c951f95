//! The tests of a move.
ghost use Rattle.std.specs.Prelude.{◌≡◌, ◌≢◌, ◌≤◌, ◌&&◌, Bool, true, IfOk, IfErr, OnOk, Ok, Some, length};
ghost use Rattle.directory_tree.specs.declared.node.Kind.TheVariants as kind;
ghost use Rattle.directory_tree.specs.Tree.{Entry, is_directory, is_below, is_empty};
ghost use Rattle.directory_tree.specs.Apply.{Changed, rename, onto_kind, at_two};
ghost use Rattle.directory_tree.specs.Walk.Spot.{Held};
ghost use Rattle.directory_tree.specs.Spots.{shape_of, node_at, kind_at, child_of};
ghost use Rattle.path_lookup.specs.Target.{target_for};
ghost use Rattle.path_lookup.specs.WalkFaults.{IsFault};
ghost use Rattle.path_lookup.specs.World.{World, Narrows, IsTorn};
ghost use Rattle.change_checks.specs.Act.{acted, IsTested, NamesOnly, Fits};

use crate::act::{Act, Move};
use crate::below::lies_below;
use crate::look::ChangeLook;
use crate::place::{Place, find_places};
use directory_tree::Kind;
use names::{Errno, LONGEST_COMPONENT, Path};
use path_lookup::{EndSlash, Look, Torn, WalkFault};

/// Tests a move of an entry (rename(2)). A move onto another entry of the same node does nothing.
pub(crate) fn check_rename<'a, L: ChangeLook>(
    look: &mut L,
    old: &Path<'a>,
    new: &Path<'a>,
) -> Result<Act<'a, L::Entry>, WalkFault>
    ensures kept { L.kept look.new ≡ L.kept look.old }
    ensures narrows { Narrows (L.sees look.old) (L.sees look.new) }
    ensures keeps { (e : L.Entry) → L.knows look.old e → L.knows look.new e }
    ensures known { IfOk result (NamesOnly (L.knows look.new)) }
    ensures fits { IfOk result Fits }
    ensures acts { IfOk result (λ act. (w : World) → L.sees look.new w →
        at_two w.tree (target_for EndSlash.Refused old.now) (target_for EndSlash.Refused new.now) (rename w.tree)
        ≡ Ok (acted (λ e. L.means e w) w.tree act)) }
    ensures tested { IfOk result (λ act. (w : World) → L.sees look.new w → IsTested (λ e. L.means e w) w.tree (L.capacity look.new) act) }
    ensures fault { IfErr result (IsFault (L.lacks look.new) (L.sees look.new) (λ w.
        at_two w.tree (target_for EndSlash.Refused old.now) (target_for EndSlash.Refused new.now) (rename w.tree))) }
{
    let (from, to) = find_places(look, old, new)?;
    check_move(look, &from, &to)
}

// The same for two places.
fn check_move<'a, L: ChangeLook>(
    look: &mut L,
    from: &Place<'a, L::Entry>,
    to: &Place<'a, L::Entry>,
) -> Result<Act<'a, L::Entry>, WalkFault>
    requires from { L.knows look.old from.now.directory }
    requires to { L.knows look.old to.now.directory }
    requires directory { (w : World) → L.sees look.old w → shape_of (kind_at (L.means to.now.directory w)) ≡ kind.Directory }
    requires fits { length to.now.component.now ≤ LONGEST_COMPONENT }
    ensures kept { L.kept look.new ≡ L.kept look.old }
    ensures narrows { Narrows (L.sees look.old) (L.sees look.new) }
    ensures keeps { (e : L.Entry) → L.knows look.old e → L.knows look.new e }
    ensures known { IfOk result (NamesOnly (L.knows look.new)) }
    ensures fits { IfOk result Fits }
    ensures acts { IfOk result (λ act. (w : World) → L.sees look.new w →
        rename w.tree (node_at (L.means from.now.directory w)) from.now.component.now (node_at (L.means to.now.directory w))
        to.now.component.now
        ≡ Ok (acted (λ e. L.means e w) w.tree act)) }
    ensures tested { IfOk result (λ act. (w : World) → L.sees look.new w → IsTested (λ e. L.means e w) w.tree (L.capacity look.new) act) }
    ensures fault { IfErr result (IsFault (L.lacks look.new) (L.sees look.new) (λ w.
        rename w.tree (node_at (L.means from.now.directory w)) from.now.component.now (node_at (L.means to.now.directory w))
        to.now.component.now)) }
{
    let Some(entry) = look.child(from.directory, from.component)? else {
        return Err(WalkFault::Refused(Errno::ENOENT));
    };
    if let Some(other) = look.child(to.directory, to.component)? {
        return check_onto(look, from, entry, to, other);
    }
    if goes_below(look, entry, to.directory)? {
        return Err(WalkFault::Refused(Errno::EINVAL));
    }
    Ok(Act::Move(Move::new(from, entry, to, None)))
}

// The same where there is an entry at the new place.
fn check_onto<'a, L: ChangeLook>(
    look: &mut L,
    from: &Place<'a, L::Entry>,
    entry: L::Entry,
    to: &Place<'a, L::Entry>,
    other: L::Entry,
) -> Result<Act<'a, L::Entry>, WalkFault>
    requires from { L.knows look.old from.now.directory }
    requires entry { L.knows look.old entry }
    requires to { L.knows look.old to.now.directory }
    requires other { L.knows look.old other }
    requires directory { (w : World) → L.sees look.old w → shape_of (kind_at (L.means to.now.directory w)) ≡ kind.Directory }
    requires fits { length to.now.component.now ≤ LONGEST_COMPONENT }
    requires moves { (w : World) → L.sees look.old w → child_of w.tree (L.means from.now.directory w) from.now.component.now
        ≡ Some (L.means entry w) }
    requires onto { (w : World) → L.sees look.old w → child_of w.tree (L.means to.now.directory w) to.now.component.now
        ≡ Some (L.means other w) }
    ensures kept { L.kept look.new ≡ L.kept look.old }
    ensures narrows { Narrows (L.sees look.old) (L.sees look.new) }
    ensures keeps { (e : L.Entry) → L.knows look.old e → L.knows look.new e }
    ensures known { IfOk result (NamesOnly (L.knows look.new)) }
    ensures fits { IfOk result Fits }
    ensures acts { IfOk result (λ act. (w : World) → L.sees look.new w →
        rename w.tree (node_at (L.means from.now.directory w)) from.now.component.now (node_at (L.means to.now.directory w))
        to.now.component.now
        ≡ Ok (acted (λ e. L.means e w) w.tree act)) }
    ensures tested { IfOk result (λ act. (w : World) → L.sees look.new w → IsTested (λ e. L.means e w) w.tree (L.capacity look.new) act) }
    ensures fault { IfErr result (IsFault (L.lacks look.new) (L.sees look.new) (λ w.
        rename w.tree (node_at (L.means from.now.directory w)) from.now.component.now (node_at (L.means to.now.directory w))
        to.now.component.now)) }
{
    if look.node(other)? == look.node(entry)? {
        return Ok(Act::Nothing);
    }
    if goes_below(look, entry, to.directory)? {
        return Err(WalkFault::Refused(Errno::EINVAL));
    }
    check_replaced(look, entry, other)?;
    Ok(Act::Move(Move::new(from, entry, to, Some(other))))
}

// Whether the entry is of a directory, and the other directory is the same or lies below it.
fn goes_below<L: ChangeLook>(look: &mut L, entry: L::Entry, into: L::Entry) -> Result<bool, Torn>
    requires entry { L.knows look.old entry }
    requires into { L.knows look.old into }
    requires directory { (w : World) → L.sees look.old w → shape_of (kind_at (L.means into w)) ≡ kind.Directory }
    ensures kept { L.kept look.new ≡ L.kept look.old }
    ensures narrows { Narrows (L.sees look.old) (L.sees look.new) }
    ensures keeps { (e : L.Entry) → L.knows look.old e → L.knows look.new e }
    ensures answer { IfOk result (λ below. (w : World) → L.sees look.new w →
        (is_directory (kind_at (L.means entry w)) && is_below w.tree.entries (length w.tree.entries) (node_at (L.means entry w))
        (node_at (L.means into w))) ≡ below) }
    ensures torn { IfErr result (λ _. IsTorn (L.lacks look.new) (L.sees look.new)) }
{
    match look.kind(entry)? {
        Kind::Directory => {
            let number = look.node(entry)?;
            lies_below(look, number, into)
        }
        Kind::File | Kind::Link => Ok(false),
    }
}

// Tests that an entry may replace another: an empty directory is replaced only by a directory, and a non-directory only by a
// non-directory.
fn check_replaced<L: ChangeLook>(
    look: &mut L,
    entry: L::Entry,
    other: L::Entry,
) -> Result<(), WalkFault>
    requires entry { L.knows look.old entry }
    requires other { L.knows look.old other }
    ensures kept { L.kept look.new ≡ L.kept look.old }
    ensures narrows { Narrows (L.sees look.old) (L.sees look.new) }
    ensures keeps { (e : L.Entry) → L.knows look.old e → L.knows look.new e }
    ensures gives_way { OnOk result ((w : World) (old new : Entry) (go : Changed) → L.sees look.new w → L.means entry w ≡ Held old →
        L.means other w ≡ Held new →
        onto_kind w.tree.entries old new go ≡ go) }
    ensures empty { OnOk result ((w : World) → L.sees look.new w → shape_of (kind_at (L.means other w)) ≡ kind.Directory →
        is_empty w.tree.entries (node_at (L.means other w)) ≡ true) }
    ensures fault { IfErr result (λ fault. (old new : World → Entry) (go : World → Changed) →
        ((w : World) → L.sees look.new w → (L.means entry w ≡ Held (old w)) × (L.means other w ≡ Held (new w))) →
        IsFault (L.lacks look.new) (L.sees look.new) (λ w. onto_kind w.tree.entries (old w) (new w) (go w)) fault) }
{
    let moves_directory = look.kind(entry)? == Kind::Directory;
    match look.kind(other)? {
        Kind::Directory if moves_directory => {
            if look.is_empty(other)? {
                Ok(())
            } else {
                Err(WalkFault::Refused(Errno::ENOTEMPTY))
            }
        }
        Kind::Directory => Err(WalkFault::Refused(Errno::EISDIR)),
        Kind::File | Kind::Link if moves_directory => Err(WalkFault::Refused(Errno::ENOTDIR)),
        Kind::File | Kind::Link => Ok(()),
    }
}
