//! The name of the place that a path names.
ghost use Rattle.std.specs.Prelude.{◌≡◌, ◌≤◌, ◌++◌, length, IfOk, IfErr, Ok, Err, take};
ghost use Rattle.directory_tree.specs.declared.node.Kind.TheVariants as kind;
ghost use Rattle.directory_tree.specs.declared.node.Last.TheVariants.{Follow};
ghost use Rattle.directory_tree.specs.Name.{judged};
ghost use Rattle.directory_tree.specs.Place.{named_place};
ghost use Rattle.directory_tree.specs.Walk.{walk};
ghost use Rattle.directory_tree.specs.Spots.{shape_of, node_at, kind_at};
ghost use Rattle.path_lookup.specs.World.{World, Narrows};
ghost use Rattle.path_lookup.specs.WalkFaults.{IsFault};
ghost use Rattle.directory_tree.specs.Apply.{and_then, directory_at};

use crate::fault::WalkFault;
use crate::look::Look;
use crate::name::{NAME_ROOM, name_of};
use crate::scratch::Scratch;
use crate::target::{EndSlash, split_path};
use crate::walk::resolve_text;
use directory_tree::{Kind, Last};
use names::{Errno, LONGEST_COMPONENT, LONGEST_PATH, Path};

/// Writes to the front of `room` the name of the place that a path names, where an entry of a file is or will be, and returns its
/// length, at most 4,095: the name of the directory and then the path's last component. Links on the way are followed, at most 40;
/// whether there is an entry isn't checked. Allocates nothing.
pub fn name_of_place<L: Look>(
    look: &mut L,
    path: &Path<'_>,
    scratch: &mut Scratch,
    room: &mut [u8; NAME_ROOM],
) -> Result<usize, WalkFault>
    ensures kept { L.kept look.new ≡ L.kept look.old }
    ensures narrows { Narrows (L.sees look.old) (L.sees look.new) }
    ensures keeps { (e : L.Entry) → L.knows look.old e → L.knows look.new e }
    ensures fits { IfOk result (λ length. length ≤ LONGEST_PATH) }
    ensures name { IfOk result (λ length. (w : World) → L.sees look.new w → named_place w.tree path.now ≡ Ok (take length room.new)) }
    ensures fault { IfErr result (IsFault (L.lacks look.new) (L.sees look.new) (λ w. named_place w.tree path.now)) }
{
    let parts = match split_path(path, EndSlash::Refused) {
        Ok(parts) => parts,
        Err(errno) => return Err(WalkFault::Refused(errno)),
    };
    let directory = find_directory(look, parts.before, scratch)?;
    let end = name_of(look, directory, room)?;
    match put_behind(room, end, parts.last) {
        Ok(length) => Ok(length),
        Err(errno) => Err(WalkFault::Refused(errno)),
    }
}

/// The directory that a text leads to. Links on the way are followed, at most 40. Allocates nothing.
pub fn find_directory<L: Look>(
    look: &mut L,
    text: &[u8],
    scratch: &mut Scratch,
) -> Result<L::Entry, WalkFault>
    requires { length text.now ≤ LONGEST_PATH }
    ensures kept { L.kept look.new ≡ L.kept look.old }
    ensures narrows { Narrows (L.sees look.old) (L.sees look.new) }
    ensures keeps { (e : L.Entry) → L.knows look.old e → L.knows look.new e }
    ensures known { IfOk result (L.knows look.new) }
    ensures directory { IfOk result (λ e. (w : World) → L.sees look.new w → shape_of (kind_at (L.means e w)) ≡ kind.Directory) }
    ensures found { IfOk result (λ e. (w : World) → L.sees look.new w → and_then (walk w.tree Follow text.now) directory_at
        ≡ Ok (node_at (L.means e w))) }
    ensures fault { IfErr result (IsFault (L.lacks look.new) (L.sees look.new)
        (λ w. and_then (walk w.tree Follow text.now) directory_at)) }
{
    let end = resolve_text(look, text, Last::Follow, scratch)?;
    match look.kind(end)? {
        Kind::Directory => Ok(end),
        Kind::File | Kind::Link => Err(WalkFault::Refused(Errno::ENOTDIR)),
    }
}

// Writes a component after the directory's name that ends at `end`, and returns where it ends.
fn put_behind(room: &mut [u8; NAME_ROOM], end: usize, component: &[u8]) -> Result<usize, Errno>
    requires name { end ≤ LONGEST_PATH }
    requires component { length component.now ≤ LONGEST_COMPONENT }
    ensures fits { IfOk result (λ length. length ≤ LONGEST_PATH) }
    ensures name { IfOk result (λ length. judged (take end room.old ++ component.now) ≡ Ok (take length room.new)) }
    ensures long { IfErr result (λ errno. judged (take end room.old ++ component.now) ≡ Err errno) }
{
    let whole = end + component.len();
    if whole > LONGEST_PATH {
        return Err(Errno::ENAMETOOLONG);
    }
    room[end..whole].copy_from_slice(component);
    Ok(whole)
}
