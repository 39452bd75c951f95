//! The tree that files are opened in.
ghost use Rattle.std.specs.Prelude.{◌≤◌};

use dentry_cache::Keeper;
use directory_tree::{Change, LinkBytes};
use names::Path;
use std::alloc::Global;
use tree_row::MOST_ENTRIES;

/// The directories, each in the one before.
const DIRECTORIES: &[u8] = b"/d01/d02/d03/d04/d05/d06/d07/d08/d09/d10/d11/d12/d13/d14/d15/d16";

/// The number of bytes that each of them has in that path.
const STEP: usize = 4;

/// How many there are.
const DEEPEST: usize = 16;

/// The files of each directory.
const FILES: [&[u8]; 6] = [b"/conf", b"/data", b"/lock", b"/log", b"/state", b"/file"];

/// A directory that no file is below, and its other name.
pub(crate) const ASIDE: &[u8] = b"/aside";

pub(crate) const AWAY: &[u8] = b"/away";

/// The keeper of a tree of 117 entries, with room for `capacity`: four symbolic links, a directory aside, and 16 directories, each
/// in the one before, each with six files; none if memory runs out.
pub(crate) fn grown(alloc: Global, capacity: usize) -> Option<Keeper>
    requires { capacity ≤ MOST_ENTRIES }
{
    let mut keeper = Keeper::new(alloc, capacity).ok()?;
    link(&mut keeper, b"/one", b"d01/d02/d03/d04")?;
    link(&mut keeper, b"/two", b"one")?;
    link(&mut keeper, b"/three", b"two")?;
    link(&mut keeper, b"/four", b"three")?;
    make_directory(&mut keeper, ASIDE)?;
    for depth in 1..DEEPEST + 1 {
        let directory = directory(depth);
        make_directory(&mut keeper, directory)?;
        make_files(alloc, &mut keeper, directory)?;
    }
    Some(keeper)
}

/// The directory `depth` directories down, or the deepest.
pub(crate) fn directory(depth: usize) -> &'static [u8] {
    &DIRECTORIES[..STEP * depth.min(DEEPEST)]
}

fn link(keeper: &mut Keeper, name: &[u8], text: &[u8]) -> Option<u64> {
    let change = Change::Symlink(LinkBytes::new(text), path(name)?);
    keeper.apply(&change).ok()
}

fn make_directory(keeper: &mut Keeper, name: &[u8]) -> Option<u64> {
    let change = Change::Mkdir(path(name)?);
    keeper.apply(&change).ok()
}

/// Makes a file.
pub(crate) fn make_file(keeper: &mut Keeper, name: &[u8]) -> Option<u64> {
    let change = Change::Create(path(name)?);
    keeper.apply(&change).ok()
}

// Returns how many files were made.
fn make_files(alloc: Global, keeper: &mut Keeper, directory: &[u8]) -> Option<usize> {
    for file in FILES {
        let mut name = Vec::from_slice(alloc, directory).ok()?;
        name.extend_from_slice(file).ok()?;
        make_file(keeper, &name)?;
    }
    Some(FILES.len())
}

/// Bytes as a path, if they are one.
pub(crate) fn path(bytes: &[u8]) -> Option<Path<'_>> {
    Path::check(bytes).ok()
}
