//! Changes of both trees.
use crate::twins::{Differ, Twins};
use directory_tree::Change;
use names::Errno;

// After each change both trees have to report the same for these paths.
const PATHS: [&str; 32] = [
    "/", "/a", "/b", "/c", "/d", "/e", "/f", "/g", "/h", "/k", "/l", "/m", "/n", "/r", "/a/b",
    "/a/c", "/a/f", "/a/g", "/b/a", "/b/f", "/d/a", "/d/b", "/e/f", "/a/b/f", "/l/b", "/d/..",
    "/0", "/W", "/X", "/Y", "/W/g", "/W/h",
];

/// Tests a change, and makes it: the version after it, or the errno that it is refused with. The test returns what the change
/// itself then answers, and changes nothing; afterwards both trees report the same.
pub(crate) fn make(tree: &mut Twins, change: &Change<'_>) -> Result<Result<u64, Errno>, Differ> {
    let before = tree.version();
    let tests = [tree.test(change), tree.test(change)];
    let is_unchanged = tree.version() == before;
    let answer = tree.apply(change)?;
    let is_right = tests == [answer.err(); 2] && is_unchanged && is_next(tree, before, answer);
    if is_right && tree.is_same_at_all(&PATHS) {
        Ok(answer)
    } else {
        Err(Differ)
    }
}

// Whether the tree's version is the answered one, or the same as before if the change was refused.
fn is_next(tree: &Twins, before: u64, answer: Result<u64, Errno>) -> bool {
    match answer {
        Ok(version) => tree.version() == version && version == before.wrapping_add(1),
        Err(_) => tree.version() == before,
    }
}
