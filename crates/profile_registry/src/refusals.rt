//! How often a reader wasn't answered, for contracts alone.
ghost use Rattle.std.specs.Prelude.{◌≡◌, ◌+◌, ℕ};
ghost use Rattle.std.specs.Borrow.{ftrue};

use std::marker::{Model, PhantomData};

/// A count. It needs no memory: only contracts read it.
#[derive(Drop)]
pub(crate) struct Refusals {
    marker: PhantomData<u8>,
    pub ghost count: { ℕ },
}

impl Model for Refusals {
    ghost also_owns = { λ _. ftrue };
}

// A struct with a history for contracts alone has this only where it is proved. This one owns nothing.
unsafe impl Send for Refusals {}

impl Refusals {
    pub(crate) fn new() -> Refusals
        ensures { result.count ≡ 0 }
    {
        Refusals {
            marker: PhantomData,
        }
    }

    /// The count with one more refusal.
    pub(crate) fn and_one(&self) -> Refusals
        ensures { result.count ≡ self.now.count + 1 }
    {
        Refusals {
            marker: PhantomData,
        }
    }
}
