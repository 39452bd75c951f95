//! Where a path leads, and the name of what is there.
ghost use Rattle.std.specs.Prelude.{◌≡◌, ◌≤◌, IfOk, IfErr, Ok, take};
ghost use Rattle.directory_tree.specs.Apply.{and_then};
ghost use Rattle.directory_tree.specs.Name.{judged_name};
ghost use Rattle.directory_tree.specs.Walk.{walk};
ghost use Rattle.path_lookup.specs.World.{World, Narrows};
ghost use Rattle.path_lookup.specs.WalkFaults.{IsFault};

use crate::fault::WalkFault;
use crate::look::Look;
use crate::name::{NAME_ROOM, name_of};
use crate::scratch::Scratch;
use crate::walk::{Found, resolve_named};
use directory_tree::Last;
use names::{LONGEST_PATH, Path};

/// Where a path leads.
#[derive(Clone, Copy, Debug, PartialEq, Eq)]
pub struct Reached<E> {
    /// The entry, or the root.
    pub entry: E,
    /// How many bytes its name has.
    pub length: usize,
}

/// Where a path leads, as [`resolve`](crate::resolve) finds it, and its name, which is written to the front of `room`, as
/// [`name_of`] does; but a path that is seen to be the name is copied. Allocates nothing.
pub fn reach<L: Look>(
    look: &mut L,
    path: &Path<'_>,
    last: Last,
    scratch: &mut Scratch,
    room: &mut [u8; NAME_ROOM],
) -> Result<Reached<L::Entry>, WalkFault>
    ensures kept { L.kept look.new ≡ L.kept look.old }
    ensures narrows { Narrows (L.sees look.old) (L.sees look.new) }
    ensures keeps { (e : L.Entry) → L.knows look.old e → L.knows look.new e }
    ensures known { IfOk result (λ reached. L.knows look.new reached.entry) }
    ensures fits { IfOk result (λ reached. reached.length ≤ LONGEST_PATH) }
    ensures found { IfOk result (λ reached. (w : World) → L.sees look.new w → walk w.tree last path.now ≡ Ok (L.means reached.entry w)) }
    ensures name { IfOk result (λ reached. (w : World) → L.sees look.new w → and_then (walk w.tree last path.now) (judged_name w.tree)
        ≡ Ok (take reached.length room.new)) }
    ensures fault { IfErr result
        (IsFault (L.lacks look.new) (L.sees look.new) (λ w. and_then (walk w.tree last path.now) (judged_name w.tree))) }
{
    let Found { entry, is_named } = resolve_named(look, path, last, scratch)?;
    if is_named {
        let name = path.as_bytes();
        let length = name.len();
        room[..length].copy_from_slice(name);
        return Ok(Reached { entry, length });
    }
    let length = name_of(look, entry, room)?;
    Ok(Reached { entry, length })
}
