//! What is timed.
use crate::changes::{change_of, path};
use crate::trees::DEEPEST;
use directory_tree::Change;
use names::Path;

/// A change that is planned, or a path that is followed.
#[derive(Drop)]
pub(crate) enum Work {
    Change(Change<'static>),
    Walk(Path<'static>),
}

/// The work of this name: a change, or a walk of 1, 4 or 16 components.
pub(crate) fn work_of(name: &[u8]) -> Option<Work> {
    match name {
        b"walk1" => Some(Work::Walk(path(b"/d")?)),
        b"walk4" => Some(Work::Walk(path(b"/d/d/d/d")?)),
        b"walk16" => Some(Work::Walk(path(DEEPEST)?)),
        _ => Some(Work::Change(change_of(name)?)),
    }
}
