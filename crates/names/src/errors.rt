ghost use Rattle.std.specs.Prelude.{◌≡◌, Some};
ghost use Rattle.names.specs.Errors.{errno_number, errno_name, errno_text};

use std::error::Error;
use std::fmt;

/// Why a call on a path was refused, by the names of errno(3) and the numbers of Linux's generic table.
/// It is printed as its name, a space and its number.
#[derive(Clone, Copy, Debug, PartialEq, Eq)]
pub enum Errno {
    /// The operation isn't permitted on such a node.
    EPERM,
    /// A component is missing, or the path is empty.
    ENOENT,
    /// Memory was refused.
    ENOMEM,
    /// The root can't be changed.
    EBUSY,
    /// The entry is there already.
    EEXIST,
    /// A component that must be a directory isn't one.
    ENOTDIR,
    /// The entry is a directory, where none may be.
    EISDIR,
    /// The path or the change is malformed.
    EINVAL,
    /// All entries are used.
    ENOSPC,
    /// A path, a component or a name is too long.
    ENAMETOOLONG,
    /// The directory isn't empty.
    ENOTEMPTY,
    /// Too many symbolic links were met in one walk.
    ELOOP,
    /// No more changes can be counted.
    EOVERFLOW,
}

impl Errno {
    /// Linux's number of the error.
    pub fn number(self) -> u16
        ensures { result ≡ errno_number self }
    {
        match self {
            Errno::EPERM => 1,
            Errno::ENOENT => 2,
            Errno::ENOMEM => 12,
            Errno::EBUSY => 16,
            Errno::EEXIST => 17,
            Errno::ENOTDIR => 20,
            Errno::EISDIR => 21,
            Errno::EINVAL => 22,
            Errno::ENOSPC => 28,
            Errno::ENAMETOOLONG => 36,
            Errno::ENOTEMPTY => 39,
            Errno::ELOOP => 40,
            Errno::EOVERFLOW => 75,
        }
    }

    /// Linux's name of the error.
    pub fn name(self) -> &'static str
        ensures { result.now ≡ errno_name self }
    {
        match self {
            Errno::EPERM => "EPERM",
            Errno::ENOENT => "ENOENT",
            Errno::ENOMEM => "ENOMEM",
            Errno::EBUSY => "EBUSY",
            Errno::EEXIST => "EEXIST",
            Errno::ENOTDIR => "ENOTDIR",
            Errno::EISDIR => "EISDIR",
            Errno::EINVAL => "EINVAL",
            Errno::ENOSPC => "ENOSPC",
            Errno::ENAMETOOLONG => "ENAMETOOLONG",
            Errno::ENOTEMPTY => "ENOTEMPTY",
            Errno::ELOOP => "ELOOP",
            Errno::EOVERFLOW => "EOVERFLOW",
        }
    }
}

impl fmt::Display for Errno {
    ghost output = { λ e. Some (errno_text e) };

    fn fmt<W: fmt::Write>(&self, f: &mut fmt::Formatter<W>) -> fmt::Result {
        write!(f, "{} {}", self.name(), self.number())
    }
}

impl Error for Errno {}

/// Memory was refused, and nothing was changed. It is printed as `no memory`.
#[derive(Clone, Copy, Debug, PartialEq, Eq)]
pub struct NoMemory;

impl fmt::Display for NoMemory {
    ghost use Rattle.names.specs.Errors.{no_memory_text};

    ghost output = { λ _. Some no_memory_text };

    fn fmt<W: fmt::Write>(&self, f: &mut fmt::Formatter<W>) -> fmt::Result {
        write!(f, "no memory")
    }
}

impl Error for NoMemory {}
