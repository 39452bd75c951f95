//! One tree twice: in a row in memory, and in plain memory.
ghost use Rattle.std.specs.Prelude.{◌≡◌, ◌≤◌, IfOk};
ghost use Rattle.tree_row.specs.OpeningRow.{opening_row};

use crate::index::has_index;
use directory_tree::{Change, Kind, LONGEST_LINK_TEXT, Last, root_alone_is_well_formed};
use names::{Errno, LONGEST_PATH, NoMemory, Path};
use path_lookup::{Look, NAME_ROOM, Scratch, WalkFault, name_of, name_of_place, resolve};
use plain_tree::PlainTree;
use row_plan::{change_row, plan};
use row_rule::Cell;
use std::alloc::Global;
use std::marker::Model;
use tree_row::{KnownRow, MOST_ENTRIES, RowLook, opening_row_encodes_root};

/// The row and the tree in plain memory differ, or the row has no index: the proofs are wrong.
#[derive(Clone, Copy, Debug, PartialEq, Eq)]
pub(crate) struct Differ;

/// One tree twice.
#[derive(Drop)]
pub(crate) struct Twins {
    alloc: Global,
    // The tree in a row in memory, and the number of the next node.
    look: RowLook<KnownRow>,
    next: u64,
    // The same tree in plain memory.
    plain: PlainTree,
}

impl Model for Twins {
    ghost use Rattle.std.specs.Prelude.{◌≡◌, ℕ, List};
    ghost use Rattle.row_plan.specs.Plan.{Plannable};

    ghost Value = { (ℕ × List ℕ) × ℕ };

    ghost view = { λ t. (t.look.cells, t.next) };

    ghost invariant = { λ t. Plannable t.look.cells.0 (λ row. row ≡ t.look.cells.1) t.next };
}

impl Twins {
    /// The root alone. If an allocation fails once, it is tried again, since tests make allocations fail.
    pub(crate) fn new(alloc: Global, capacity: usize) -> Result<Twins, NoMemory>
        requires { capacity ≤ MOST_ENTRIES }
    {
        opening_row_encodes_root();
        root_alone_is_well_formed();
        let plain = new_plain(alloc, capacity)?;
        let row = new_row(alloc, capacity)?;
        Ok(Twins {
            alloc,
            look: RowLook::new(row),
            next: 2,
            plain,
        })
    }

    /// How many changes were made.
    pub(crate) fn version(&self) -> u64 {
        self.plain.version()
    }

    /// The errno that the tree in plain memory would refuse a change with, if it would.
    pub(crate) fn test(&mut self, change: &Change<'_>) -> Option<Errno> {
        self.plain.test(change).err()
    }

    /// Makes a change in both trees, which have to answer alike: the errno that it is refused with, or the version that it makes. The
    /// row has to have an index afterwards.
    pub(crate) fn apply(&mut self, change: &Change<'_>) -> Result<Result<u64, Errno>, Differ> {
        let refusal = self.apply_row(change);
        let answer = apply_plain(&mut self.plain, change);
        if refusal == answer.err() && has_index(&self.look.cells) {
            Ok(answer)
        } else {
            Err(Differ)
        }
    }

    // Makes a change in the row, or returns the errno that it is refused with. If memory runs out, nothing is changed, and the
    // change can be made again.
    fn apply_row(&mut self, change: &Change<'_>) -> Option<Errno> {
        match self.apply_row_once(change) {
            Some(Errno::ENOMEM) => self.apply_row_once(change),
            answer => answer,
        }
    }

    fn apply_row_once(&mut self, change: &Change<'_>) -> Option<Errno> {
        if self.next == u64::MAX {
            return Some(Errno::EOVERFLOW);
        }
        match change_row(self.alloc, &mut self.look, self.next, change) {
            Ok(next) => {
                self.next = next;
                None
            }
            Err(errno) => Some(errno),
        }
    }

    /// The cells that a change would set in the row. If an allocation fails once, it is tried again.
    pub(crate) fn plan(&mut self, change: &Change<'_>) -> Result<Vec<Cell>, Errno> {
        match self.plan_once(change) {
            Err(Errno::ENOMEM) => self.plan_once(change),
            answer => answer,
        }
    }

    fn plan_once(&mut self, change: &Change<'_>) -> Result<Vec<Cell>, Errno> {
        plan(self.alloc, &mut self.look, self.next, change)
    }

    /// What both trees report for a path: where it leads, and the name and a link's text of what is there, which are put into the
    /// rooms.
    pub(crate) fn tell(
        &mut self,
        path: &Path<'_>,
        rooms: &mut Rooms,
    ) -> Result<Result<Told, WalkFault>, Differ>
        ensures { IfOk result (λ answer. IfOk answer (λ told. told.text ≤ LONGEST_LINK_TEXT)) }
    {
        let told = self.tell_row(path, rooms);
        if tells(&mut self.plain, path, told, rooms) {
            Ok(told)
        } else {
            Err(Differ)
        }
    }

    // What the row reports for a path.
    fn tell_row(&mut self, path: &Path<'_>, rooms: &mut Rooms) -> Result<Told, WalkFault>
        ensures { IfOk result (λ told. told.text ≤ LONGEST_LINK_TEXT) }
    {
        tell(&mut self.look, path, rooms)
    }

    /// The name of the place that a path names, as both trees report it, or why it has none. The name is put into the room.
    pub(crate) fn name_place(
        &mut self,
        path: &Path<'_>,
        room: &mut [u8; NAME_ROOM],
    ) -> Result<Result<usize, WalkFault>, Differ>
        ensures { IfOk result (λ told. IfOk told (λ length. length ≤ LONGEST_PATH)) }
    {
        let told = self.name_place_in_row(path, room);
        if names_place(&mut self.plain, path, told, room) {
            Ok(told)
        } else {
            Err(Differ)
        }
    }

    fn name_place_in_row(
        &mut self,
        path: &Path<'_>,
        room: &mut [u8; NAME_ROOM],
    ) -> Result<usize, WalkFault>
        ensures { IfOk result (λ length. length ≤ LONGEST_PATH) }
    {
        name_of_place(&mut self.look, path, &mut Scratch::new(), room)
    }

    /// Whether both trees report the same for a path, and for the place that it names.
    pub(crate) fn is_same_at(&mut self, path: &Path<'_>) -> bool {
        self.tell(path, &mut Rooms::new()).is_ok()
            && self.name_place(path, &mut [0; NAME_ROOM]).is_ok()
    }

    /// The same for all these paths.
    pub(crate) fn is_same_at_all(&mut self, paths: &[&str]) -> bool {
        for path in paths {
            let Ok(path) = Path::check(path.as_bytes()) else {
                return false;
            };
            if !self.is_same_at(&path) {
                return false;
            }
        }
        true
    }
}

// If an allocation fails once, it is tried again.
fn new_row(alloc: Global, capacity: usize) -> Result<KnownRow, NoMemory>
    requires { capacity ≤ MOST_ENTRIES }
    ensures { IfOk result (λ row. row ≡ (capacity, opening_row capacity)) }
{
    match KnownRow::new(alloc, capacity) {
        Ok(row) => Ok(row),
        Err(_) => match KnownRow::new(alloc, capacity) {
            Ok(row) => Ok(row),
            Err(_) => Err(NoMemory),
        },
    }
}

fn new_plain(alloc: Global, capacity: usize) -> Result<PlainTree, NoMemory> {
    match PlainTree::new(alloc, capacity) {
        Ok(tree) => Ok(tree),
        Err(_) => PlainTree::new(alloc, capacity),
    }
}

// If memory runs out, nothing is changed, and the change can be made again.
fn apply_plain(plain: &mut PlainTree, change: &Change<'_>) -> Result<u64, Errno> {
    match plain.apply(change) {
        Err(Errno::ENOMEM) => plain.apply(change),
        answer => answer,
    }
}

/// What a tree reports for the entry that a path leads to.
#[derive(Debug, Clone, Copy, PartialEq, Eq)]
pub(crate) struct Told {
    pub node: u64,
    pub kind: Kind,
    /// How long its name is.
    pub name: usize,
    /// How long its link's text is.
    pub text: usize,
}

/// Where names and texts are written to.
#[derive(Drop)]
pub(crate) struct Rooms {
    pub name: [u8; NAME_ROOM],
    pub text: [u8; LONGEST_LINK_TEXT],
}

impl Rooms {
    pub(crate) fn new() -> Rooms {
        Rooms {
            name: [0; NAME_ROOM],
            text: [0; LONGEST_LINK_TEXT],
        }
    }
}

fn tell<L: Look>(look: &mut L, path: &Path<'_>, rooms: &mut Rooms) -> Result<Told, WalkFault>
    ensures kept { L.kept look.new ≡ L.kept look.old }
    ensures name { IfOk result (λ told. told.name ≤ LONGEST_PATH) }
    ensures text { IfOk result (λ told. told.text ≤ LONGEST_LINK_TEXT) }
{
    let mut scratch = Scratch::new();
    let entry = resolve(look, path, Last::Stay, &mut scratch)?;
    let node = look.node(entry)?;
    let kind = look.kind(entry)?;
    let name = name_of(look, entry, &mut rooms.name)?;
    let text = match kind {
        Kind::Link => look.link_text(entry, &mut rooms.text)?,
        Kind::Directory | Kind::File => 0,
    };
    Ok(Told {
        node,
        kind,
        name,
        text,
    })
}

// Whether the tree in plain memory reports this for a path.
fn tells(
    plain: &mut PlainTree,
    path: &Path<'_>,
    wanted: Result<Told, WalkFault>,
    ours: &Rooms,
) -> bool {
    let mut rooms = Rooms::new();
    match tell(plain, path, &mut rooms) {
        Ok(told) => {
            wanted == Ok(told)
                && ours.name[..told.name] == rooms.name[..told.name]
                && ours.text[..told.text] == rooms.text[..told.text]
        }
        Err(fault) => wanted == Err(fault),
    }
}

// Whether the tree in plain memory has this name for the place that a path names.
fn names_place(
    plain: &mut PlainTree,
    path: &Path<'_>,
    wanted: Result<usize, WalkFault>,
    ours: &[u8; NAME_ROOM],
) -> bool {
    let mut room = [0; NAME_ROOM];
    match name_of_place(plain, path, &mut Scratch::new(), &mut room) {
        Ok(length) => wanted == Ok(length) && ours[..length] == room[..length],
        Err(fault) => wanted == Err(fault),
    }
}
