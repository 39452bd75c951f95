//! The name of a visit, from its last byte to its first.
ghost use Rattle.std.specs.Prelude.{◌≡◌, ◌<◌, ℕ, List, IfOk, Some, length, slice_get};
ghost use Rattle.automaton_search.specs.inner.Trails.{AreNames};
ghost use Rattle.automaton_search.specs.declared.walk.Trail.{Trail};

use crate::walk::Trail;
use std::alloc::{AllocError, Global};

/// The name of the visit with this index: its bytes are those of the trails from it back to the first one.
pub(crate) fn name_of(alloc: Global, trails: &[Trail], index: usize) -> Result<Vec<u8>, AllocError>
    requires there { index < length trails.now }
    requires parents { (j : ℕ) (t : Trail) → 0 < j → slice_get trails.now j ≡ Some t → t.parent < j }
    ensures { IfOk result (λ name. (names : List (List ℕ)) → AreNames trails.now names → slice_get names index ≡ Some name.items) }
{
    let mut bytes = Vec::new(alloc);
    let mut at = index;
    while at > 0 {
        let trail = trails[at];
        bytes.push(trail.byte)?;
        at = trail.parent as usize;
    }
    bytes.push(b'/')?;
    bytes.reverse();
    Ok(bytes)
}
