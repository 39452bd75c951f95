//! Why a function of the crate returns no value.
ghost use Rattle.std.specs.Prelude.{◌≡◌};

use crate::fault::ExpandFault;
use std::alloc::{AllocError, AllocFailed};

/// Why no value was made.
#[derive(Clone, Copy)]
pub(crate) enum Refusal {
    /// There is none.
    Nothing,
    /// Memory was refused.
    NoMemory,
}

impl From<AllocError> for Refusal {
    ghost use Rattle.apparmor_variables.specs.declared.refusal.Refusal.TheVariants.{NoMemory};

    ghost from_gives = { λ _ refusal. refusal ≡ NoMemory };

    fn from(_refused: AllocError) -> Refusal {
        Refusal::NoMemory
    }
}

impl<T: Drop> From<AllocFailed<T>> for Refusal {
    ghost use Rattle.apparmor_variables.specs.declared.refusal.Refusal.TheVariants.{NoMemory};

    ghost from_gives = { λ _ refusal. refusal ≡ NoMemory };

    fn from(_refused: AllocFailed<T>) -> Refusal {
        Refusal::NoMemory
    }
}

impl<'t> From<Refusal> for ExpandFault<'t> {
    ghost use Rattle.apparmor_variables.specs.inner.Gives.{fault_of};

    ghost from_gives = { λ refusal fault. fault ≡ fault_of refusal };

    fn from(refusal: Refusal) -> ExpandFault<'t> {
        match refusal {
            Refusal::Nothing => ExpandFault::TooLong,
            Refusal::NoMemory => ExpandFault::NoMemory,
        }
    }
}
