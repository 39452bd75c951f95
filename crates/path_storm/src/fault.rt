//! Why there was no storm.
ghost use Rattle.std.specs.Prelude.{◌≡◌, Some};
ghost use Rattle.path_storm.specs.Faults.{storm_fault_text};

use names::NoMemory;
use path_guard::SessionFault;
use std::alloc::{AllocError, AllocFailed};
use std::fmt;

/// Why a storm gave no report.
#[derive(Clone, Copy, Debug, PartialEq, Eq)]
pub enum StormFault {
    NoMemory,
    /// A thread could not be started.
    NoThread,
    /// All places of walkers, or of readers of the policy, are taken.
    NoSeat,
}

impl fmt::Display for StormFault {
    ghost output = { λ fault. Some (storm_fault_text fault) };

    fn fmt<W: fmt::Write>(&self, f: &mut fmt::Formatter<W>) -> fmt::Result {
        match self {
            StormFault::NoMemory => write!(f, "{}", NoMemory),
            StormFault::NoThread => write!(f, "no thread"),
            StormFault::NoSeat => write!(f, "no seat"),
        }
    }
}

impl From<AllocError> for StormFault {
    ghost use Rattle.path_storm.specs.declared.fault.StormFault.TheVariants.{NoMemory};

    ghost from_gives = { λ _ fault. fault ≡ NoMemory };

    fn from(_refused: AllocError) -> StormFault {
        StormFault::NoMemory
    }
}

impl<T: Drop> From<AllocFailed<T>> for StormFault {
    ghost use Rattle.path_storm.specs.declared.fault.StormFault.TheVariants.{NoMemory};

    ghost from_gives = { λ _ fault. fault ≡ NoMemory };

    fn from(_refused: AllocFailed<T>) -> StormFault {
        StormFault::NoMemory
    }
}

impl From<NoMemory> for StormFault {
    ghost use Rattle.path_storm.specs.declared.fault.StormFault.TheVariants as storm;

    ghost from_gives = { λ _ fault. fault ≡ storm.NoMemory };

    fn from(_refused: NoMemory) -> StormFault {
        StormFault::NoMemory
    }
}

impl From<SessionFault> for StormFault {
    ghost use Rattle.path_storm.specs.Faults.{of_session};

    ghost from_gives = { λ fault told. told ≡ of_session fault };

    fn from(fault: SessionFault) -> StormFault {
        match fault {
            SessionFault::NoSeat => StormFault::NoSeat,
            SessionFault::NoMemory => StormFault::NoMemory,
        }
    }
}
