//! Why bytes aren't an image, or tables can't be run.
ghost use Rattle.std.specs.Prelude.{◌≡◌};
ghost use Rattle.tables.specs.Bounds.{fault_index, fault_number};

use names::NoMemory;
use std::alloc::AllocError;
use thiserror::Error;

/// Why an image or its tables are refused. The faults are in the order in which they are tested; those of one kind are reported
/// at their least state or cell.
#[derive(Clone, Copy, Debug, PartialEq, Eq, Error)]
pub enum ImageFault {
    /// Fewer than 20 bytes.
    #[error("no whole header")]
    Short,
    /// The first four bytes aren't `PTAB`.
    #[error("no image")]
    Magic,
    /// Another version than 1 and 2.
    #[error("another version")]
    Version,
    /// In version 1, the two bytes after the version aren't 0.
    #[error("reserved bytes in use")]
    Reserved,
    /// Fewer than 2 or more than 65,536 states, fewer than 256 or more than 16,777,216 cells, or fewer than 1 or more than
    /// 65,536 records.
    #[error("a count out of its limits")]
    Counts,
    /// Another length than the counts say.
    #[error("another length than the counts tell")]
    Length,
    /// A state's default is no state.
    #[error("the default of state {state} is no state")]
    Default { state: u32 },
    /// A state's row would end after the last cell.
    #[error("the row of state {state} ends behind the last cell")]
    Base { state: u32 },
    /// A state's accept names no record.
    #[error("the accept of state {state} is no record")]
    Accept { state: u32 },
    /// A cell's next is no state.
    #[error("the next of cell {cell} is no state")]
    Next { cell: u32 },
    /// Memory was refused; nothing is said of the image.
    #[error("{}", NoMemory)]
    NoMemory,
    /// A state's depth is over the bound, or is over 0 and not over that of its default.
    #[error("the depth of state {state} is over the bound, or not over that of its default")]
    Depth { state: u32 },
}

impl ImageFault {
    /// The number of the fault, 1 to 12.
    pub fn number(self) -> u16
        ensures { result ≡ fault_number self }
    {
        match self {
            ImageFault::Short => 1,
            ImageFault::Magic => 2,
            ImageFault::Version => 3,
            ImageFault::Reserved => 4,
            ImageFault::Counts => 5,
            ImageFault::Length => 6,
            ImageFault::Default { .. } => 7,
            ImageFault::Base { .. } => 8,
            ImageFault::Accept { .. } => 9,
            ImageFault::Next { .. } => 10,
            ImageFault::NoMemory => 11,
            ImageFault::Depth { .. } => 12,
        }
    }

    /// The state or cell of the faults 7 to 10 and 12.
    pub fn index(self) -> Option<u32>
        ensures { result ≡ fault_index self }
    {
        match self {
            ImageFault::Default { state }
            | ImageFault::Base { state }
            | ImageFault::Accept { state }
            | ImageFault::Depth { state } => Some(state),
            ImageFault::Next { cell } => Some(cell),
            _ => None,
        }
    }
}

impl From<AllocError> for ImageFault {
    ghost use Rattle.tables.specs.declared.fault.ImageFault.TheVariants as fault;

    ghost from_gives = { λ _ given. given ≡ fault.NoMemory };

    fn from(_error: AllocError) -> ImageFault {
        ImageFault::NoMemory
    }
}
