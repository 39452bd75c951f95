//! Why a profile isn't made.
ghost use Rattle.std.specs.Prelude.{◌≡◌};
ghost use Rattle.matcher.specs.MakeFaults.{fault_number};

use glob_automaton::CompileFault;
use names::NoMemory;
use thiserror::Error;

/// Why a profile isn't compiled. The profile is then dropped.
#[derive(Clone, Copy, Debug, PartialEq, Eq, Error)]
pub enum MakeFault {
    /// Its prefixes of names have more than 16,384 different sets of live places, the empty set counted.
    #[error("too many states")]
    TooManyStates,
    /// Memory was refused; nothing is said of the profile.
    #[error("{}", NoMemory)]
    NoMemory,
}

impl MakeFault {
    /// The number of the fault, 1 or 2.
    pub fn number(self) -> u16
        ensures { result ≡ fault_number self }
    {
        match self {
            MakeFault::TooManyStates => 1,
            MakeFault::NoMemory => 2,
        }
    }
}

impl From<CompileFault> for MakeFault {
    ghost use Rattle.matcher.specs.MakeFaults.{made_of};

    ghost from_gives = { λ fault given. given ≡ made_of fault };

    fn from(fault: CompileFault) -> MakeFault {
        match fault {
            CompileFault::TooManyStates => MakeFault::TooManyStates,
            CompileFault::NoMemory => MakeFault::NoMemory,
        }
    }
}

impl From<NoMemory> for MakeFault {
    ghost use Rattle.matcher.specs.declared.fault.MakeFault.TheVariants as fault;

    ghost from_gives = { λ _ given. given ≡ fault.NoMemory };

    fn from(_refused: NoMemory) -> MakeFault {
        MakeFault::NoMemory
    }
}
