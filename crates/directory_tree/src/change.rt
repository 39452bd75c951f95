use names::Path;
use std::marker::Model;

/// The bytes of a link's text, before they are tested.
#[derive(Debug, Drop)]
pub struct LinkBytes<'a> {
    bytes: &'a [u8],
}

impl<'a> Model for LinkBytes<'a> {
    ghost use Rattle.std.specs.Prelude.{List, ℕ};

    ghost Value = { List ℕ };

    ghost view = { λ t. t.bytes.now };
}

impl<'a> LinkBytes<'a> {
    ghost use Rattle.std.specs.Prelude.{◌≡◌};

    /// Any bytes: they are tested when a link is made of them.
    pub fn new(bytes: &'a [u8]) -> LinkBytes<'a>
        ensures { result ≡ bytes.now }
    {
        LinkBytes { bytes }
    }

    /// The bytes as they were given.
    pub fn as_bytes(&self) -> &'a [u8]
        ensures { result.now ≡ self.now }
    {
        self.bytes
    }
}

/// A change of the tree. Its paths name the entries that are made, removed or moved.
#[derive(Debug, Drop)]
pub enum Change<'a> {
    /// A new directory (mkdir(2)).
    Mkdir(Path<'a>),
    /// A new file (open(2) with O_CREAT and O_EXCL).
    Create(Path<'a>),
    /// A new symbolic link with this text (symlink(2)).
    Symlink(LinkBytes<'a>, Path<'a>),
    /// One more entry of the first path's file (link(2)).
    Link(Path<'a>, Path<'a>),
    /// An entry of a file or a symbolic link is removed (unlink(2)).
    Unlink(Path<'a>),
    /// An empty directory is removed (rmdir(2)).
    Rmdir(Path<'a>),
    /// The entry of the first path moves to the second (rename(2)).
    Rename(Path<'a>, Path<'a>),
}
