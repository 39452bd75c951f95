//! Where reading stops.
ghost use Rattle.std.specs.Prelude.{◌≡◌, length};
ghost use Rattle.apparmor_words.specs.declared.stop.Failure.TheVariants.{NoMemory, At};

use std::alloc::{AllocError, AllocFailed};

/// What is wrong with a text.
#[derive(Clone, Copy, Debug)]
pub enum StopKind<'t> {
    /// The grammar doesn't allow what follows.
    Syntax,
    /// An include: the text is not flattened.
    Include,
    /// A word, a byte or a flag that is not supported.
    LeftOut(&'t [u8]),
    /// Letters that are no permissions, or not allowed in this rule.
    Permissions,
}

/// A fault, and how many bytes of the text are left from its place on.
#[derive(Clone, Copy, Debug)]
pub struct Stop<'t> {
    pub kind: StopKind<'t>,
    pub left: usize,
}

/// Why a part of a text was not read, if reading it allocates memory.
#[derive(Drop)]
pub enum Failure<'t> {
    /// An allocation failed.
    NoMemory,
    /// The text has a fault.
    At(Stop<'t>),
}

impl<'t> From<AllocError> for Failure<'t> {
    ghost from_gives = { λ _ e. e ≡ NoMemory };

    fn from(_error: AllocError) -> Failure<'t> {
        Failure::NoMemory
    }
}

impl<'t, T: Drop> From<AllocFailed<T>> for Failure<'t> {
    ghost from_gives = { λ _ e. e ≡ NoMemory };

    fn from(_error: AllocFailed<T>) -> Failure<'t> {
        Failure::NoMemory
    }
}

impl<'t> From<Stop<'t>> for Failure<'t> {
    ghost from_gives = { λ stop e. e ≡ At stop };

    fn from(stop: Stop<'t>) -> Failure<'t> {
        Failure::At(stop)
    }
}

/// Returns the fault at the first of these bytes.
pub fn fault_here<'t>(kind: StopKind<'t>, bytes: &[u8]) -> Stop<'t>
    ensures { result ≡ record { kind = kind.entry; left = length bytes.now } }
{
    Stop {
        kind,
        left: bytes.len(),
    }
}
