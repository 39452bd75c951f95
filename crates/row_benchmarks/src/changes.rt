//! The changes that are timed.
use directory_tree::{Change, LinkBytes};
use names::Path;

/// The change of this name, for a tree that `grow` has filled.
pub(crate) fn change_of(name: &[u8]) -> Option<Change<'static>> {
    let (file, new) = (path(b"/file")?, path(b"/new")?);
    let (empty, other) = (path(b"/empty")?, path(b"/other")?);
    match name {
        b"mkdir" => Some(Change::Mkdir(new)),
        b"create" => Some(Change::Create(new)),
        b"symlink" => Some(Change::Symlink(LinkBytes::new(b"d/d"), new)),
        b"link" => Some(Change::Link(file, new)),
        b"unlink" => Some(Change::Unlink(file)),
        b"rmdir" => Some(Change::Rmdir(empty)),
        b"rename" => Some(Change::Rename(file, new)),
        b"replace" => Some(Change::Rename(file, other)),
        _ => None,
    }
}

/// Bytes as a path, if they are one.
pub(crate) fn path(bytes: &[u8]) -> Option<Path<'_>> {
    Path::check(bytes).ok()
}
