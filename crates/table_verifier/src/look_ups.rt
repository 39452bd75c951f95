//! How many cells were looked up.
ghost use Rattle.std.specs.Prelude.{◌≡◌, ◌+◌, ◌^◌, ◌<◌, length};

use std::marker::Model;

/// A count of the cells whose owner was read.
#[derive(Debug, Drop)]
pub struct LookUps {
    count: u128,
}

impl Model for LookUps {
    ghost use Rattle.std.specs.Prelude.{ℕ};

    ghost Value = { ℕ };

    ghost view = { λ lookups. lookups.count };
}

impl LookUps {
    /// None so far.
    pub fn new() -> LookUps
        ensures { result ≡ 0 }
    {
        LookUps { count: 0 }
    }

    /// How many there were.
    pub fn count(&self) -> u128
        ensures { result ≡ self.now }
    {
        self.count
    }

    /// The look-ups of some bytes: a first one for each, and those of bytes that were looked up again.
    pub fn of_bytes(&mut self, bytes: &[u8], again: &LookUps)
        requires { self.old + length bytes.now + again.now < 2 ^ 128 }
        ensures { self.new ≡ self.old + length bytes.now + again.now }
    {
        self.count += bytes.len() as u128 + again.count;
    }

    /// One more.
    pub(crate) fn add(&mut self)
        requires { self.old + 1 < 2 ^ 128 }
        ensures { self.new ≡ self.old + 1 }
    {
        self.count += 1;
    }
}
