//! Changes of a tree, made in each way that there is to keep one.
ghost use Rattle.std.specs.Prelude.{◌≡◌, ◌↔◌, IfOk, IsOk, None};
ghost use Rattle.names.specs.Paths.{path_fault};

use crate::call::Call;
use crate::difference::{Difference, How};
use directory_tree::{Change, LinkBytes};
use names::Path;

/// Checks a path. Nothing is allocated.
pub fn path(text: &[u8]) -> Result<Path<'_>, Difference>
    ensures path { IfOk result (λ path. path ≡ text.now) }
    ensures fault { IsOk result ↔ path_fault text.now ≡ None }
{
    match Path::check(text) {
        Ok(path) => Ok(path),
        Err(_) => Err(Difference::new(Call::CheckPath, How::Fails)),
    }
}

/// Changes of each kind, some of which a tree refuses: of an entry that is there, and of a directory with entries.
pub fn tree_changes() -> Result<[Change<'static>; 14], Difference> {
    Ok([
        Change::Mkdir(path(b"/a")?),
        Change::Mkdir(path(b"/a/directory with a longer name")?),
        Change::Create(path(b"/a/directory with a longer name/f")?),
        Change::Create(path(b"/a/g")?),
        Change::Symlink(
            LinkBytes::new(b"a/directory with a longer name"),
            path(b"/s")?,
        ),
        Change::Link(path(b"/a/g")?, path(b"/h")?),
        Change::Rename(path(b"/a/directory with a longer name")?, path(b"/c")?),
        Change::Rename(path(b"/h")?, path(b"/c/f")?),
        Change::Create(path(b"/c/f")?),
        Change::Unlink(path(b"/s")?),
        Change::Rmdir(path(b"/c")?),
        Change::Rename(path(b"/a")?, path(b"/c/a")?),
        Change::Unlink(path(b"/c/f")?),
        Change::Rmdir(path(b"/c/a")?),
    ])
}
