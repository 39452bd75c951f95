//! Faults of a text apart from its grammar.
ghost use Rattle.std.specs.Prelude.{◌≡◌};

use names::NoMemory;
use std::alloc::{AllocError, AllocFailed};

/// What is wrong with a text apart from its grammar.
#[derive(Debug, Drop)]
pub enum ScopeFaultKind {
    /// A variable is declared twice, added to before it is declared, or assigned to after a profile began, or it is `profile_name`.
    Declared,
    /// The full name of a profile isn't a name: it is too long, say.
    Name,
    /// A rule's path needs a variable of this name, which isn't declared.
    Undefined(Vec<u8>),
    /// A rule's path needs a variable of this name, which needs itself.
    Cycle(Vec<u8>),
    /// The text of a rule's path, or the list of a variable that it needs, is too long.
    TooLong,
    /// There are too many variables, or the texts of paths and the lists of variables are too long together.
    TooMuch,
}

/// A fault, and how many bytes of the text come before its place.
#[derive(Debug, Drop)]
pub struct ScopeFault {
    pub kind: ScopeFaultKind,
    pub place: usize,
}

/// Why there is no scope of a text.
#[derive(Debug, Drop)]
pub enum ScopeFailure {
    /// Memory was refused, or the items have more bytes than can be counted.
    NoMemory,
    /// The text has a fault, and this is the first.
    At(ScopeFault),
}

impl From<NoMemory> for ScopeFailure {
    ghost use Rattle.import_scope.specs.declared.fault.ScopeFailure.TheVariants as failures;

    ghost from_gives = { λ _ failure. failure ≡ failures.NoMemory };

    fn from(_refused: NoMemory) -> ScopeFailure {
        ScopeFailure::NoMemory
    }
}

impl From<AllocError> for ScopeFailure {
    ghost use Rattle.import_scope.specs.declared.fault.ScopeFailure.TheVariants as failures;

    ghost from_gives = { λ _ failure. failure ≡ failures.NoMemory };

    fn from(_refused: AllocError) -> ScopeFailure {
        ScopeFailure::NoMemory
    }
}

impl<T: Drop> From<AllocFailed<T>> for ScopeFailure {
    ghost use Rattle.import_scope.specs.declared.fault.ScopeFailure.TheVariants as failures;

    ghost from_gives = { λ _ failure. failure ≡ failures.NoMemory };

    fn from(_refused: AllocFailed<T>) -> ScopeFailure {
        ScopeFailure::NoMemory
    }
}
