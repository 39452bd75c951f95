use std::alloc::{AllocError, Global};
use std::marker::Model;

/// The text of a symbolic link (symlink(7)).
#[derive(Drop)]
pub struct LinkText {
    bytes: Vec<u8>,
}

impl Model for LinkText {
    ghost use Rattle.std.specs.Prelude.{List, ℕ};

    ghost Value = { List ℕ };

    ghost view = { λ t. t.bytes.items };
}

impl LinkText {
    ghost use Rattle.std.specs.Prelude.{◌≡◌, IfOk};

    /// A copy of these bytes.
    pub fn copied(alloc: Global, bytes: &[u8]) -> Result<LinkText, AllocError>
        ensures { IfOk result (λ text. text ≡ bytes.now) }
    {
        let bytes = Vec::from_slice(alloc, bytes)?;
        Ok(LinkText { bytes })
    }

    /// The bytes of the text.
    pub fn as_bytes(&self) -> &[u8]
        ensures { result.now ≡ self.now }
    {
        self.bytes.as_slice()
    }
}

/// What a node is (inode(7), the file types that are modelled here).
#[derive(Clone, Copy, Debug, PartialEq, Eq)]
pub enum Kind {
    Directory,
    File,
    /// A symbolic link.
    Link,
}

/// What a node is, with the text of a symbolic link.
#[derive(Drop)]
pub enum NodeKind {
    Directory,
    File,
    Link(LinkText),
}

/// What a walk does where its last component names a symbolic link (path_resolution(7)).
#[derive(Clone, Copy, Debug, PartialEq, Eq)]
pub enum Last {
    /// The link is followed.
    Follow,
    /// The link itself is the answer.
    Stay,
}

impl NodeKind {
    ghost use Rattle.std.specs.Prelude.{◌≡◌};
    ghost use Rattle.directory_tree.specs.Tree.{is_directory};

    /// Whether the node is a directory.
    pub fn is_directory(&self) -> bool
        ensures { result ≡ is_directory self.now }
    {
        matches!(self, NodeKind::Directory)
    }
}
