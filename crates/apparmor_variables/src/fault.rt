ghost use Rattle.std.specs.Prelude.{◌≡◌};

use std::alloc::{AllocError, AllocFailed};

/// Why a substitution gives no text.
#[derive(Clone, Copy, Debug, PartialEq, Eq)]
pub enum ExpandFault<'t> {
    /// A variable that is used, or that is needed through others, isn't declared.
    Undefined { name: &'t [u8] },
    /// A variable needs itself.
    Cycle { name: &'t [u8] },
    /// The list of a variable, or the whole text, is too long.
    TooLong,
    /// An allocation failed; this says nothing about the text.
    NoMemory,
}

impl<'t> From<AllocError> for ExpandFault<'t> {
    ghost use Rattle.apparmor_variables.specs.declared.fault.ExpandFault.TheVariants.{NoMemory};

    ghost from_gives = { λ _ fault. fault ≡ NoMemory };

    fn from(_refused: AllocError) -> ExpandFault<'t> {
        ExpandFault::NoMemory
    }
}

impl<'t, T: Drop> From<AllocFailed<T>> for ExpandFault<'t> {
    ghost use Rattle.apparmor_variables.specs.declared.fault.ExpandFault.TheVariants.{NoMemory};

    ghost from_gives = { λ _ fault. fault ≡ NoMemory };

    fn from(_refused: AllocFailed<T>) -> ExpandFault<'t> {
        ExpandFault::NoMemory
    }
}
