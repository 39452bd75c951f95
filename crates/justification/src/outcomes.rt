//! The outcomes of an open in one tree after the other.
ghost use Rattle.std.specs.Prelude.{◌≡◌, ◌++◌, ◌∷◌, [], IfOk};
ghost use Rattle.justification.specs.inner.Ends.{AreEnds};

use crate::end::{End, end_in};
use directory_tree::Change;
use names::{Errno, NoMemory, Perms};
use plain_tree::PlainTree;
use std::alloc::Global;

/// The outcomes of an open after none of the changes, after the first, and so on, up to the first change that is refused.
pub(crate) fn ends_after(
    alloc: Global,
    path: &[u8],
    ask: Perms,
    changes: &[Change<'_>],
) -> Result<Vec<End>, NoMemory>
    ensures { IfOk result (λ ends. AreEnds changes.now path.now ask ends.items) }
{
    let mut tree = PlainTree::new(alloc, changes.len())?;
    let mut ends = Vec::new(alloc);
    push(&mut ends, end_in(alloc, &mut tree, path, ask)?)?;
    for change in changes {
        match tree.apply(change) {
            Ok(_) => push(&mut ends, end_in(alloc, &mut tree, path, ask)?)?,
            Err(errno) => match errno {
                Errno::ENOMEM => return Err(NoMemory),
                _ => return Ok(ends),
            },
        }
    }
    Ok(ends)
}

fn push(ends: &mut Vec<End>, end: End) -> Result<(), NoMemory>
    ensures { IfOk result (λ _. ends.new.items ≡ ends.old.items ++ end ∷ []) }
{
    match ends.push(end) {
        Ok(()) => Ok(()),
        Err(_) => Err(NoMemory),
    }
}
