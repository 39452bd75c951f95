//! The name of an entry.
ghost use Rattle.std.specs.Prelude.{◌≡◌, ◌≤◌, ◌<◌, ◌∷◌, ◌++◌, ℕ, List, IfOk, IfErr, IsSome, Ok, take, drop};
ghost use Rattle.directory_tree.specs.Components.{slash};
ghost use Rattle.directory_tree.specs.Name.{judged, judged_name};
ghost use Rattle.directory_tree.specs.Spots.{component_at, directory_of};
ghost use Rattle.path_lookup.specs.World.{World, Narrows};
ghost use Rattle.path_lookup.specs.WalkFaults.{IsFault};

use crate::fault::WalkFault;
use crate::look::Look;
use crate::scratch::put_in_front;
use directory_tree::Kind;
use names::{Errno, LONGEST_COMPONENT, LONGEST_PATH};

/// The size of the room that a name is written to: the longest name, and one more byte.
pub const NAME_ROOM: usize = LONGEST_PATH + 1;

/// Writes an entry's name to the front of `room`, and returns its length, at most 4,095: the path from the root that has no link,
/// no `.` and no `..` in it (realpath(3)). A directory's ends with a slash. Allocates nothing.
pub fn name_of<L: Look>(
    look: &mut L,
    entry: L::Entry,
    room: &mut [u8; NAME_ROOM],
) -> Result<usize, WalkFault>
    requires { L.knows look.old entry }
    ensures kept { L.kept look.new ≡ L.kept look.old }
    ensures narrows { Narrows (L.sees look.old) (L.sees look.new) }
    ensures keeps { (e : L.Entry) → L.knows look.old e → L.knows look.new e }
    ensures fits { IfOk result (λ length. length ≤ LONGEST_PATH) }
    ensures name { IfOk result (λ length. (w : World) → L.sees look.new w →
        judged_name w.tree (L.means entry w) ≡ Ok (take length room.new)) }
    ensures fault { IfErr result (IsFault (L.lacks look.new) (L.sees look.new) (λ w. judged_name w.tree (L.means entry w))) }
{
    // The name is written from its end to its front, at the end of the room.
    let mut start = match look.kind(entry)? {
        Kind::Directory => put_in_front(room, NAME_ROOM, b"/"),
        Kind::File | Kind::Link => NAME_ROOM,
    };
    let mut below = entry;
    let mut component = [0; LONGEST_COMPONENT];
    while let Some(directory) = look.parent(below)? {
        start = put_component(look, below, &mut component, room, start)?;
        below = directory;
    }
    room.copy_within(start.., 0);
    Ok(NAME_ROOM - start)
}

// Writes the entry's component, with a slash before it, in front of what begins at `start`, and returns where it begins. What
// was in `component` is lost.
fn put_component<L: Look>(
    look: &mut L,
    entry: L::Entry,
    component: &mut [u8; LONGEST_COMPONENT],
    room: &mut [u8; NAME_ROOM],
    start: usize,
) -> Result<usize, WalkFault>
    requires known { L.knows look.old entry }
    requires below { (w : World) → L.sees look.old w → IsSome (directory_of w.tree (L.means entry w)) }
    requires within { start ≤ NAME_ROOM }
    ensures kept { L.kept look.new ≡ L.kept look.old }
    ensures narrows { Narrows (L.sees look.old) (L.sees look.new) }
    ensures keeps { (e : L.Entry) → L.knows look.old e → L.knows look.new e }
    ensures start { IfOk result (λ begin. (0 < begin) × (begin < start)) }
    ensures text { IfOk result (λ begin. (w : World) → L.sees look.new w →
        drop begin room.new ≡ slash ∷ (component_at (L.means entry w) ++ drop start room.old)) }
    ensures fault { IfErr result (λ fault. (front : World → List ℕ) → IsFault (L.lacks look.new) (L.sees look.new)
        (λ w. judged (front w ++ slash ∷ (component_at (L.means entry w) ++ drop start room.old))) fault) }
{
    let length = look.component(entry, component)?;
    if length == 0 {
        // An entry of a directory has a component.
        return Err(WalkFault::Torn);
    }
    if length + 1 >= start {
        return Err(WalkFault::Refused(Errno::ENAMETOOLONG));
    }
    let start = put_in_front(room, start, &component[..length]);
    Ok(put_in_front(room, start, b"/"))
}
