//! Changes, and their ways back.
use crate::changes::{change_of, path};
use dentry_cache::Keeper;
use directory_tree::Change;

/// The kinds of change that are timed.
pub(crate) const KINDS: [&str; 8] = [
    "mkdir", "create", "symlink", "link", "unlink", "rmdir", "rename", "replace",
];

/// A change, and what undoes it: one more change, or two.
#[derive(Drop)]
pub(crate) struct Trip {
    pub there: Change<'static>,
    back: Change<'static>,
    rest: Option<Change<'static>>,
}

impl Trip {
    /// Undoes the change, and returns whether that was done.
    pub(crate) fn undo(&self, keeper: &mut Keeper) -> bool {
        keeper.apply(&self.back).is_ok()
            && match &self.rest {
                Some(rest) => keeper.apply(rest).is_ok(),
                None => true,
            }
    }
}

/// The change of a kind, and its way back.
pub(crate) fn trip_of(kind: &[u8]) -> Option<Trip> {
    let rest = match kind {
        b"replace" => Some(Change::Create(path(b"/other")?)),
        _ => None,
    };
    Some(Trip {
        there: change_of(kind)?,
        back: back_of(kind)?,
        rest,
    })
}

// What undoes the change of a kind, except that a file that was replaced has to be created again.
fn back_of(kind: &[u8]) -> Option<Change<'static>> {
    let (file, new) = (path(b"/file")?, path(b"/new")?);
    let (empty, other) = (path(b"/empty")?, path(b"/other")?);
    match kind {
        b"mkdir" => Some(Change::Rmdir(new)),
        b"create" | b"symlink" | b"link" => Some(Change::Unlink(new)),
        b"unlink" => Some(Change::Create(file)),
        b"rmdir" => Some(Change::Mkdir(empty)),
        b"rename" => Some(Change::Rename(new, file)),
        b"replace" => Some(Change::Rename(other, file)),
        _ => None,
    }
}
