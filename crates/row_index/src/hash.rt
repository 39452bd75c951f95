//! The place at which the search for an entry begins.
ghost use Rattle.std.specs.Prelude.{◌≡◌, ◌<◌, ◌^◌, ℕ};
ghost use Rattle.row_index.specs.Hashes.{home};

/// Returns the place of an index at which the search for a component begins, in the directory of a slot.
pub fn home(size: usize, directory: usize, component: &[u8]) -> usize
    requires size { (k : ℕ) × (size ≡ 2 ^ k) }
    requires directory { directory < 2 ^ 32 }
    ensures home { result ≡ home size directory component.now }
    ensures within { result < size }
{
    let mut hash = directory as u32;
    for byte in component {
        hash = hash.wrapping_mul(31).wrapping_add(u32::from(*byte));
    }
    // the size is a power of two, so a mask gives the remainder without a division
    hash as usize & (size - 1)
}
