//! Why the server ends before its input does.
use names::{Errno, NoMemory};
use path_guard::SessionFault;
use std::alloc::AllocFailed;
use std::fmt;
use trace_report::{Fault, Status};
use trace_script::Stop;

/// Why there is no server, or why a worker has stopped.
#[derive(Clone, Copy)]
pub(crate) enum ServerFault {
    Usage,
    /// The file can't be read, or its text isn't a profile that can be compiled.
    Profile(Fault),
    /// The profile isn't published.
    Publication(Errno),
    /// A request couldn't be read, an answer couldn't be written, or memory was refused.
    Requests(Stop),
    /// There is no place for one more session.
    NoSeat,
    NoThread,
}

impl ServerFault {
    /// How the program ends.
    pub(crate) fn status(self) -> Status {
        match self {
            ServerFault::Usage => Status::BadArguments,
            ServerFault::Profile(fault) => fault.status(),
            ServerFault::Requests(stop) => stop.status(),
            ServerFault::Publication(_) | ServerFault::NoSeat | ServerFault::NoThread => {
                Status::Refused
            }
        }
    }
}

impl fmt::Display for ServerFault {
    fn fmt<W: fmt::Write>(&self, f: &mut fmt::Formatter<W>) -> fmt::Result {
        match self {
            ServerFault::Usage => write!(f, "usage: mediating_server PROFILE_FILE [WORKERS]"),
            ServerFault::Profile(fault) => write!(f, "{fault}"),
            ServerFault::Publication(errno) => write!(f, "refused: {errno}"),
            ServerFault::Requests(stop) => write!(f, "{stop}"),
            ServerFault::NoSeat => write!(f, "no seat"),
            ServerFault::NoThread => write!(f, "no thread"),
        }
    }
}

impl From<Fault> for ServerFault {
    fn from(fault: Fault) -> ServerFault {
        ServerFault::Profile(fault)
    }
}

impl From<Stop> for ServerFault {
    fn from(stop: Stop) -> ServerFault {
        ServerFault::Requests(stop)
    }
}

impl From<SessionFault> for ServerFault {
    fn from(fault: SessionFault) -> ServerFault {
        match fault {
            SessionFault::NoSeat => ServerFault::NoSeat,
            SessionFault::NoMemory => ServerFault::from(NoMemory),
        }
    }
}

impl From<NoMemory> for ServerFault {
    fn from(_refused: NoMemory) -> ServerFault {
        ServerFault::Requests(Stop::Memory)
    }
}

impl<T: Drop> From<AllocFailed<T>> for ServerFault {
    fn from(_refused: AllocFailed<T>) -> ServerFault {
        ServerFault::from(NoMemory)
    }
}
