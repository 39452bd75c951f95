ghost use Rattle.std.specs.Prelude.{◌≡◌, Some};
ghost use Rattle.trace_script.specs.Engine.{stop_text, stop_status, IsStopOfReading};

use names::NoMemory;
use std::alloc::{AllocError, AllocFailed};
use std::io::ErrorKind;
use std::{fmt, io};
use trace_report::Status;

/// Why a script isn't followed to its end.
#[derive(Clone, Copy)]
pub enum Stop {
    /// The line with this number is no command, or a policy that has no end begins there.
    NoCommand(u64),
    /// Reading failed.
    Input,
    /// There are more lines than are read.
    TooLong,
    /// Out of memory.
    Memory,
    /// An answer couldn't be written, or not all of it.
    Output,
}

impl Stop {
    /// How the run ends.
    pub fn status(self) -> Status
        ensures { result ≡ stop_status self }
    {
        match self {
            Stop::NoCommand(_) => Status::Refused,
            Stop::Input | Stop::TooLong => Status::InputFailed,
            Stop::Memory => Status::NoMemory,
            Stop::Output => Status::OutputFailed,
        }
    }
}

impl From<io::Error> for Stop {
    ghost from_gives = { IsStopOfReading };

    // Growing the buffer for what is read may run out of memory.
    fn from(error: io::Error) -> Stop {
        if error.kind() == ErrorKind::OutOfMemory {
            Stop::Memory
        } else {
            Stop::Input
        }
    }
}

impl From<AllocError> for Stop {
    ghost use Rattle.trace_script.specs.declared.stop.Stop.TheVariants.{Memory};

    ghost from_gives = { λ _ stop. stop ≡ Memory };

    fn from(_error: AllocError) -> Stop {
        Stop::Memory
    }
}

impl<T: Drop> From<AllocFailed<T>> for Stop {
    ghost use Rattle.trace_script.specs.declared.stop.Stop.TheVariants.{Memory};

    ghost from_gives = { λ _ stop. stop ≡ Memory };

    fn from(_error: AllocFailed<T>) -> Stop {
        Stop::Memory
    }
}

impl From<NoMemory> for Stop {
    ghost use Rattle.trace_script.specs.declared.stop.Stop.TheVariants.{Memory};

    ghost from_gives = { λ _ stop. stop ≡ Memory };

    fn from(_error: NoMemory) -> Stop {
        Stop::Memory
    }
}

impl fmt::Display for Stop {
    ghost output = { λ s. Some (stop_text s) };

    fn fmt<W: fmt::Write>(&self, f: &mut fmt::Formatter<W>) -> fmt::Result {
        match self {
            Stop::NoCommand(number) => write!(f, "line {number}: not a command"),
            Stop::Input | Stop::TooLong => write!(f, "refused: input"),
            Stop::Memory => write!(f, "{}", NoMemory),
            Stop::Output => write!(f, "refused: output"),
        }
    }
}
