//! Why there was no storm.
use names::NoMemory;
use path_guard::SessionFault;
use std::alloc::{AllocError, AllocFailed};

/// Why a storm has no tally.
#[derive(Clone, Copy, Debug, PartialEq, Eq)]
pub(crate) enum Fault {
    NoMemory,
    /// A thread could not be started.
    NoThread,
    /// All places of walkers, or of readers of the policy, are taken.
    NoSeat,
    /// The versions that were returned for the changes don't follow one another.
    NoVersion,
}

impl From<AllocError> for Fault {
    fn from(_refused: AllocError) -> Fault {
        Fault::NoMemory
    }
}

impl<T: Drop> From<AllocFailed<T>> for Fault {
    fn from(_refused: AllocFailed<T>) -> Fault {
        Fault::NoMemory
    }
}

impl From<NoMemory> for Fault {
    fn from(_refused: NoMemory) -> Fault {
        Fault::NoMemory
    }
}

impl From<SessionFault> for Fault {
    fn from(fault: SessionFault) -> Fault {
        match fault {
            SessionFault::NoSeat => Fault::NoSeat,
            SessionFault::NoMemory => Fault::NoMemory,
        }
    }
}
