//! Where reading stops.
ghost use Rattle.std.specs.Prelude.{◌≡◌, length};
ghost use Rattle.rule_reader.specs.ReadSteps.{goes_on};
ghost use Rattle.rule_reader.specs.declared.reader.local_fault.Failure.TheVariants.{NoMemory};

use std::alloc::{AllocError, AllocFailed};

/// What is wrong with a text, as [`ReadFault`](crate::fault::ReadFault) reports it.
#[derive(Clone, Copy)]
pub(crate) enum FaultKind {
    Syntax,
    /// This many bytes that are not supported.
    LeftOut(usize),
    Permission,
    EmptyPermissions,
    NotAbsolute,
    Class,
    Group,
    Depth,
    TooManyRules,
    TooManyItems,
    Conflict,
}

/// A fault, and how many bytes are left from its place on. Only the reader of the whole text knows the offset.
#[derive(Clone, Copy)]
pub(crate) struct LocalFault {
    pub(crate) kind: FaultKind,
    pub(crate) left: usize,
    /// Whether the text stays refused, whatever bytes follow it.
    pub(crate) settled: bool,
}

/// Why a part of a text was not read.
#[derive(Drop)]
pub(crate) enum Failure {
    /// Out of memory.
    NoMemory,
    /// The text has a fault.
    At(LocalFault),
}

impl From<AllocError> for Failure {
    ghost from_gives = { λ _ e. e ≡ NoMemory };

    fn from(_error: AllocError) -> Failure {
        Failure::NoMemory
    }
}

impl<T: Drop> From<AllocFailed<T>> for Failure {
    ghost from_gives = { λ _ e. e ≡ NoMemory };

    fn from(_error: AllocFailed<T>) -> Failure {
        Failure::NoMemory
    }
}

/// A fault with `left` bytes left from its place on, found by looking at `seen`.
pub(crate) fn fault_with_left(kind: FaultKind, left: usize, seen: &[u8]) -> Failure
    ensures { result ≡ Failure.At (record { kind = kind; left = left; settled = goes_on seen.now }) }
{
    Failure::At(LocalFault {
        kind,
        left,
        settled: !seen.is_empty(),
    })
}

/// The fault at the first byte of what is left, found by looking at that byte.
pub(crate) fn fault_here(kind: FaultKind, rest: &[u8]) -> Failure
    ensures { result ≡ Failure.At (record { kind = kind; left = length rest.now; settled = goes_on rest.now }) }
{
    fault_with_left(kind, rest.len(), rest)
}
