ghost use Rattle.std.specs.Prelude.{◌≡◌};
ghost use Rattle.automaton_rows.specs.Faults.{fault_number};

use names::NoMemory;
use std::alloc::AllocError;
use thiserror::Error;

/// Why a profile isn't compiled.
#[derive(Clone, Copy, Debug, PartialEq, Eq, Error)]
pub enum CompileFault {
    /// The prefixes of names have more than 16,384 different sets of live places, the empty set counted.
    #[error("too many states")]
    TooManyStates,
    /// Memory was refused; nothing is said about the profile.
    #[error("{}", NoMemory)]
    NoMemory,
}

impl CompileFault {
    /// The number of the fault, 1 or 2.
    pub fn number(&self) -> u16
        ensures { result ≡ fault_number self.now }
    {
        match self {
            CompileFault::TooManyStates => 1,
            CompileFault::NoMemory => 2,
        }
    }
}

impl From<AllocError> for CompileFault {
    ghost use Rattle.automaton_rows.specs.declared.fault.CompileFault.TheVariants as fault;

    ghost from_gives = { λ _ given. given ≡ fault.NoMemory };

    fn from(_error: AllocError) -> CompileFault {
        CompileFault::NoMemory
    }
}
