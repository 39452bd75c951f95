//! Why a command has no answer, and how that is reported.
ghost use Rattle.std.specs.Prelude.{◌≡◌, ◌↔◌, Some};
ghost use Rattle.trace_report.specs.Fault.{fault_text, fault_status, IsFaultOfReading, fault_of_image, fault_of_making, fault_of_text};

use crate::status::Status;
use matcher::MakeFault;
use names::NoMemory;
use rule_reader::ReadFault;
use std::io::ErrorKind;
use std::{fmt, io};
use tables::ImageFault;

/// Why a command has no answer.
#[derive(Clone, Copy, Debug, PartialEq, Eq)]
pub enum Fault {
    /// The letters of the permissions asked for aren't a set of permissions, or there are none.
    Permissions,
    /// The name to be judged doesn't begin with a slash.
    Name,
    /// The text that names are to be matched with isn't a path of a rule.
    Pattern,
    /// The text that was read is refused.
    Text(ReadFault),
    /// The profile that was read is refused.
    Compiling(MakeFault),
    /// The image that was read is refused.
    Image(ImageFault),
    /// Names have too many sets of live places of all rules that a question is about.
    Question,
    /// Reading failed.
    Input,
    /// Memory was refused.
    Memory,
}

impl Fault {
    /// How the run ends.
    pub fn status(self) -> Status
        ensures { result ≡ fault_status self }
    {
        match self {
            Fault::Permissions | Fault::Name | Fault::Pattern => Status::BadArguments,
            Fault::Text(_) | Fault::Compiling(_) | Fault::Image(_) | Fault::Question =>
                Status::Refused,
            Fault::Input => Status::InputFailed,
            Fault::Memory => Status::NoMemory,
        }
    }
}

impl From<io::Error> for Fault {
    ghost from_gives = { IsFaultOfReading };

    // Growing the buffer for what is read may run out of memory.
    fn from(error: io::Error) -> Fault {
        if error.kind() == ErrorKind::OutOfMemory {
            Fault::Memory
        } else {
            Fault::Input
        }
    }
}

// Running out of memory is reported as such.
impl From<ReadFault> for Fault {
    ghost from_gives = { λ fault told. told ≡ fault_of_text fault };

    fn from(fault: ReadFault) -> Fault {
        match fault {
            ReadFault::NoMemory => Fault::Memory,
            fault => Fault::Text(fault),
        }
    }
}

impl From<MakeFault> for Fault {
    ghost from_gives = { λ fault told. told ≡ fault_of_making fault };

    fn from(fault: MakeFault) -> Fault {
        match fault {
            MakeFault::NoMemory => Fault::Memory,
            fault => Fault::Compiling(fault),
        }
    }
}

impl From<ImageFault> for Fault {
    ghost from_gives = { λ fault told. told ≡ fault_of_image fault };

    fn from(fault: ImageFault) -> Fault {
        match fault {
            ImageFault::NoMemory => Fault::Memory,
            fault => Fault::Image(fault),
        }
    }
}

impl fmt::Display for Fault {
    ghost output = { λ f. Some (fault_text f) };

    fn fmt<W: fmt::Write>(&self, f: &mut fmt::Formatter<W>) -> fmt::Result {
        match self {
            Fault::Permissions => write!(f, "bad permissions"),
            Fault::Name => write!(f, "bad name"),
            Fault::Pattern => write!(f, "bad pattern"),
            Fault::Text(fault) => {
                let number = fault.number();
                // Only running out of memory has no offset, and that is reported as such.
                let offset = fault.offset().unwrap_or(0);
                write!(f, "refused: read {number} at {offset}")
            }
            Fault::Compiling(fault) => {
                let number = fault.number();
                write!(f, "refused: compile {number}")
            }
            Fault::Image(fault) => {
                let number = fault.number();
                match fault.index() {
                    Some(index) => write!(f, "refused: image {number} at {index}"),
                    None => write!(f, "refused: image {number}"),
                }
            }
            Fault::Question => write!(f, "refused: too many states (question 1)"),
            Fault::Input => write!(f, "refused: input"),
            Fault::Memory => write!(f, "{}", NoMemory),
        }
    }
}
