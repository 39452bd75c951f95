//! The files that are opened in turn, and the tree that they are in.
use crate::tree::{directory, grown, make_file};
use dentry_cache::Keeper;
use std::alloc::{AllocError, Global};

/// The number of entries that the tree has room for.
pub(crate) const CAPACITY: usize = 2048;

/// How many directories down the files are.
pub(crate) const DEPTHS: [usize; 2] = [2, 16];

/// The number of files in each of these directories.
pub(crate) const FILES: u16 = 500;

/// The keeper of the tree that [`grown`] makes, to which these files are added; none if memory runs out.
pub(crate) fn grown_with_files(alloc: Global) -> Option<Keeper> {
    let mut keeper = grown(alloc, CAPACITY)?;
    for depth in DEPTHS {
        let paths = first_paths(alloc, depth, FILES).ok()?;
        make_all(&mut keeper, &paths)?;
    }
    Some(keeper)
}

// Returns how many files were made.
fn make_all(keeper: &mut Keeper, paths: &[Vec<u8>]) -> Option<usize> {
    for path in paths {
        make_file(keeper, path)?;
    }
    Some(paths.len())
}

/// The paths of the first `count` of these files that are `depth` directories down.
pub(crate) fn first_paths(
    alloc: Global,
    depth: usize,
    count: u16,
) -> Result<Vec<Vec<u8>>, AllocError> {
    let mut paths = Vec::new(alloc);
    for k in 0..count {
        paths.push(path_of(alloc, depth, k + 1)?)?;
    }
    Ok(paths)
}

// The path of a file: `file` and three digits.
fn path_of(alloc: Global, depth: usize, number: u16) -> Result<Vec<u8>, AllocError> {
    let digits = [digit(number / 100), digit(number / 10), digit(number)];
    let mut path = Vec::from_slice(alloc, directory(depth))?;
    path.extend_from_slice(b"/file")?;
    path.extend_from_slice(&digits)?;
    Ok(path)
}

// The last digit of a number.
fn digit(number: u16) -> u8 {
    b'0' + (number % 10) as u8
}
