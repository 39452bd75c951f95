//! The places of an index, and the words that are at them.
ghost use Rattle.std.specs.Prelude.{◌≡◌, ℕ, ◌<◌, ◌≤◌, ◌+◌, ◌-◌, ◌*◌, ◌^◌, nat_lt};
ghost use Rattle.row_index.specs.Places.{around, index_length, way};

/// The word of a free place: a search ends there.
pub const FREE_WORD: u64 = 0;

/// The word of a place whose slot was removed: a search passes it, and an insertion may take it.
pub const DELETED_WORD: u64 = 1;

/// Returns the word that names a slot. An index never names slot 0, whose word would be the deleted one.
pub fn word_of(slot: usize) -> u64
    requires { slot + 1 < 2 ^ 64 }
    ensures { result ≡ slot + 1 }
{
    slot as u64 + 1
}

/// Returns the number of words of the index of a row for this many entries: the least power of two that is twice as many or
/// more.
pub fn index_length(capacity: usize) -> usize
    requires { capacity < 2 ^ 32 }
    ensures length { result ≡ index_length capacity }
    ensures power { (k : ℕ) × (result ≡ 2 ^ k) }
    ensures some { 0 < result }
    ensures enough { 2 * capacity ≤ result }
    ensures small { result ≤ 4 * capacity + 1 }
{
    (2 * capacity).next_power_of_two()
}

/// Returns the place after another; after the last one comes the first.
#[tactic(auto, using(crate::specs::laws::Rounds::around_low, crate::specs::laws::Rounds::around_high))]
pub fn next_place(size: usize, place: usize) -> usize
    requires { place < size }
    ensures next { result ≡ around size (place + 1) }
    ensures within { result < size }
{
    if place + 1 == size { 0 } else { place + 1 }
}

/// Returns the place before another; before the first one comes the last.
#[tactic(auto, using(crate::specs::laws::Rounds::around_low, crate::specs::laws::Rounds::around_high))]
pub fn place_before(size: usize, place: usize) -> usize
    requires { place < size }
    ensures before { result ≡ around size (place + (size - 1)) }
    ensures within { result < size }
{
    if place == 0 { size - 1 } else { place - 1 }
}

/// Returns how many places lie on the way from one place to another.
#[tactic(auto, using(crate::specs::laws::Rounds::way_wrapped, crate::specs::laws::Rounds::way_straight))]
fn way(size: usize, from: usize, to: usize) -> usize
    requires from { from < size }
    requires to { to < size }
    ensures { result ≡ way size from to }
{
    if to < from {
        size - from + to
    } else {
        to - from
    }
}

/// Reports whether the way from a home to the place `at` passes the place `between`.
pub fn passes(size: usize, home: usize, between: usize, at: usize) -> bool
    requires home { home < size }
    requires between { between < size }
    requires at { at < size }
    ensures { result ≡ nat_lt (way size home between) (way size home at) }
{
    way(size, home, between) < way(size, home, at)
}
