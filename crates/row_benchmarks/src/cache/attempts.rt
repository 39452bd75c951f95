//! Attempts to follow a path.
use dentry_cache::{Attempt, Walker};
use directory_tree::Last;
use names::{Errno, Path};
use path_lookup::{NAME_ROOM, Scratch, WalkFault};
use tree_row::{RowLook, reach};

/// What attempts go to.
#[derive(Clone, Copy)]
pub(crate) struct Aim<'a> {
    pub path: &'a Path<'a>,
    /// Whether an entry has this name.
    pub is_there: bool,
}

/// The outcome of some attempts.
#[derive(Clone, Copy, Debug, PartialEq, Eq)]
pub(crate) struct Tally {
    /// How many were concurrent with a change.
    pub busy: u64,
    /// How many ended well, and hadn't found what is there.
    pub wrong: u64,
}

impl Tally {
    /// Of no attempts.
    pub(crate) const NONE: Tally = Tally { busy: 0, wrong: 0 };

    /// Of one that ended well, and was right or wrong.
    fn of_one(is_right: bool) -> Tally {
        Tally {
            busy: 0,
            wrong: if is_right { 0 } else { 1 },
        }
    }

    /// Of these attempts and others.
    pub(crate) fn and(self, other: Tally) -> Tally {
        Tally {
            busy: self.busy.saturating_add(other.busy),
            wrong: self.wrong.saturating_add(other.wrong),
        }
    }
}

/// The room that attempts need.
#[derive(Drop)]
pub(crate) struct Room {
    scratch: Scratch,
    name: [u8; NAME_ROOM],
}

impl Room {
    pub(crate) fn new() -> Room {
        Room {
            scratch: Scratch::new(),
            name: [0; NAME_ROOM],
        }
    }
}

/// Follows a path `attempts` times, and returns the outcome.
pub(crate) fn walk_often(walker: Walker, aim: Aim<'_>, attempts: u64) -> (Walker, Tally) {
    let mut walker = walker;
    let mut room = Room::new();
    let mut tally = Tally::NONE;
    for _ in 0..attempts {
        let (next, one) = walk_once(walker, aim, &mut room);
        walker = next;
        tally = tally.and(one);
    }
    (walker, tally)
}

/// One attempt. If it ends well, the name of what it found has to be the path, if an entry has this name; otherwise it has to be
/// refused by `ENOENT`.
pub(crate) fn walk_once(walker: Walker, aim: Aim<'_>, room: &mut Room) -> (Walker, Tally) {
    let Room { scratch, name } = room;
    let mut look: RowLook<Attempt> = RowLook::new(walker.begin());
    let reached = reach(&mut look, aim.path, Last::Follow, scratch, name);
    let (walker, ended) = look.into_cells().end();
    let tally = match (ended, reached) {
        (Err(_), _) => Tally { busy: 1, wrong: 0 },
        (Ok(_), Ok(reached)) => {
            Tally::of_one(aim.is_there && is_name_of(&name[..reached.length], aim.path))
        }
        (Ok(_), Err(WalkFault::Refused(Errno::ENOENT))) => Tally::of_one(!aim.is_there),
        (Ok(_), Err(_)) => Tally::of_one(false),
    };
    (walker, tally)
}

// Whether this is the name of what the path leads to. A directory's name ends with a slash.
fn is_name_of(name: &[u8], path: &Path<'_>) -> bool {
    let path = path.as_bytes();
    match name {
        [front @ .., b'/'] => front == path,
        _ => name == path,
    }
}
