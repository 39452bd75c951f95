//! The tests of a change.
ghost use Rattle.std.specs.Prelude.{◌≡◌, IfOk, IfErr, Ok};
ghost use Rattle.directory_tree.specs.Apply.{apply, at_one, and_then, text_of, make, has_room};
ghost use Rattle.directory_tree.specs.declared.node.NodeKind.TheVariants.{Link};
ghost use Rattle.path_lookup.specs.Target.{target_for};
ghost use Rattle.path_lookup.specs.WalkFaults.{IsFault};
ghost use Rattle.path_lookup.specs.World.{World, Narrows};
ghost use Rattle.change_checks.specs.Act.{acted, IsTested, NamesOnly, Fits};

use crate::act::{Act, NewNode};
use crate::link_text::check_text;
use crate::look::ChangeLook;
use crate::removal::{check_rmdir, check_unlink};
use crate::rename::check_rename;
use crate::vacancy::{check_link, check_make};
use directory_tree::{Change, LinkBytes};
use names::Path;
use path_lookup::{EndSlash, Look, WalkFault};

/// Tests a change of a tree: what it would do, or with which error number it is refused, whatever tree is seen. Nothing is
/// changed, and nothing is allocated.
pub fn check_change<'a, L: ChangeLook>(
    look: &mut L,
    change: &Change<'a>,
) -> Result<Act<'a, L::Entry>, WalkFault>
    ensures kept { L.kept look.new ≡ L.kept look.old }
    ensures narrows { Narrows (L.sees look.old) (L.sees look.new) }
    ensures keeps { (e : L.Entry) → L.knows look.old e → L.knows look.new e }
    ensures known { IfOk result (NamesOnly (L.knows look.new)) }
    ensures fits { IfOk result Fits }
    ensures acts { IfOk result (λ act. (w : World) → L.sees look.new w →
        apply w.tree (has_room (L.capacity look.new) w.tree) change.now
        ≡ Ok (acted (λ e. L.means e w) w.tree act)) }
    ensures tested { IfOk result (λ act. (w : World) → L.sees look.new w → IsTested (λ e. L.means e w) w.tree (L.capacity look.new) act) }
    ensures fault { IfErr result (IsFault (L.lacks look.new) (L.sees look.new) (λ w.
        apply w.tree (has_room (L.capacity look.new) w.tree) change.now)) }
{
    match change {
        Change::Mkdir(path) => check_make(look, path, EndSlash::Allowed, &NewNode::Directory),
        Change::Create(path) => check_make(look, path, EndSlash::Refused, &NewNode::File),
        Change::Symlink(text, path) => check_symlink(look, text, path),
        Change::Link(old, new) => check_link(look, old, new),
        Change::Unlink(path) => check_unlink(look, path),
        Change::Rmdir(path) => check_rmdir(look, path),
        Change::Rename(old, new) => check_rename(look, old, new),
    }
}

// Tests a new symbolic link (symlink(2)): its text first.
fn check_symlink<'a, L: ChangeLook>(
    look: &mut L,
    text: &LinkBytes<'a>,
    path: &Path<'a>,
) -> Result<Act<'a, L::Entry>, WalkFault>
    ensures kept { L.kept look.new ≡ L.kept look.old }
    ensures narrows { Narrows (L.sees look.old) (L.sees look.new) }
    ensures keeps { (e : L.Entry) → L.knows look.old e → L.knows look.new e }
    ensures known { IfOk result (NamesOnly (L.knows look.new)) }
    ensures fits { IfOk result Fits }
    ensures acts { IfOk result (λ act. (w : World) → L.sees look.new w →
        and_then (text_of text.now) (λ bytes. at_one w.tree (target_for EndSlash.Refused path.now)
        (make w.tree (has_room (L.capacity look.new) w.tree) (Link bytes)))
        ≡ Ok (acted (λ e. L.means e w) w.tree act)) }
    ensures tested { IfOk result (λ act. (w : World) → L.sees look.new w → IsTested (λ e. L.means e w) w.tree (L.capacity look.new) act) }
    ensures fault { IfErr result (IsFault (L.lacks look.new) (L.sees look.new) (λ w.
        and_then (text_of text.now) (λ bytes. at_one w.tree (target_for EndSlash.Refused path.now)
        (make w.tree (has_room (L.capacity look.new) w.tree) (Link bytes))))) }
{
    let text = text.as_bytes();
    if let Err(errno) = check_text(text) {
        return Err(WalkFault::Refused(errno));
    }
    check_make(look, path, EndSlash::Refused, &NewNode::Link(text))
}
