//! The tree of each version, rebuilt in plain memory, and compared with what was found.
use super::answers::{Answer, Found};
use super::reach::{Rooms, reach};
use names::{Errno, Path};
use path_lookup::WalkFault;
use plain_tree::PlainTree;
use std::alloc::{AllocError, Global};
use storm_parts::{DrawnChange, NumberedPath};

/// How many of a walker's answers differ from the plain tree of their version. Where versions fall, or changes can't be made
/// again, they differ, too.
pub(crate) fn differing(
    alloc: Global,
    capacity: usize,
    log: &[DrawnChange],
    answers: &[Answer],
) -> Result<u64, AllocError> {
    let Ok(mut tree) = PlainTree::new(alloc, capacity) else {
        return Err(AllocError);
    };
    let mut rooms = Rooms::new();
    let mut differing: u64 = 0;
    for answer in answers {
        if !advances(&mut tree, log, answer.version)? || !is_right(&mut tree, answer, &mut rooms) {
            differing = differing.saturating_add(1);
        }
    }
    Ok(differing)
}

// Makes the changes up to a version, and returns whether each could be made, apart from memory.
fn advances(tree: &mut PlainTree, log: &[DrawnChange], version: u64) -> Result<bool, AllocError> {
    let Some(changes) = log.get(tree.version() as usize..version as usize) else {
        return Ok(false);
    };
    for change in changes {
        if !applies(tree, change)? {
            return Ok(false);
        }
    }
    Ok(tree.version() == version)
}

fn applies(tree: &mut PlainTree, drawn: &DrawnChange) -> Result<bool, AllocError> {
    let Some(change) = drawn.change() else {
        return Ok(false);
    };
    match tree.apply(&change) {
        Ok(_) => Ok(true),
        Err(Errno::ENOMEM) => Err(AllocError),
        Err(_) => Ok(false),
    }
}

fn is_right(tree: &mut PlainTree, answer: &Answer, rooms: &mut Rooms) -> bool {
    let path = NumberedPath::new(answer.path);
    let Ok(path) = Path::check(path.as_bytes()) else {
        return false;
    };
    match (reach(tree, &path, rooms), &answer.found) {
        (Ok(reached), Ok(found)) => {
            reached.node == found.node && &rooms.name[..reached.length] == found.name.as_slice()
        }
        (Err(WalkFault::Refused(errno)), Err(fault)) => *fault == WalkFault::Refused(errno),
        _ => false,
    }
}
