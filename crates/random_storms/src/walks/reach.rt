//! What a path leads to.
ghost use Rattle.std.specs.Prelude.{◌≡◌, ◌≤◌, IfOk};

use directory_tree::Last;
use names::{LONGEST_PATH, Path};
use path_lookup::{Look, NAME_ROOM, Scratch, WalkFault, name_of, resolve};

/// The room that walks and names need, which is reused.
#[derive(Drop)]
pub(crate) struct Rooms {
    scratch: Scratch,
    pub name: [u8; NAME_ROOM],
}

impl Rooms {
    pub(crate) fn new() -> Rooms {
        Rooms {
            scratch: Scratch::new(),
            name: [0; NAME_ROOM],
        }
    }
}

/// What a path leads to.
#[derive(Clone, Copy)]
pub(crate) struct Reached {
    /// The number of its node.
    pub node: u64,
    /// The length of its name, which is at the front of the room.
    pub length: usize,
}

/// Walks along a path, and names what it leads to.
pub(crate) fn reach<L: Look>(
    look: &mut L,
    path: &Path<'_>,
    rooms: &mut Rooms,
) -> Result<Reached, WalkFault>
    ensures kept { L.kept look.new ≡ L.kept look.old }
    ensures fits { IfOk result (λ reached. reached.length ≤ LONGEST_PATH) }
{
    let entry = resolve(look, path, Last::Follow, &mut rooms.scratch)?;
    let node = look.node(entry)?;
    let length = name_of(look, entry, &mut rooms.name)?;
    Ok(Reached { node, length })
}
