//! How commands end.
use std::alloc::{AllocError, Global};
use trace_report::Status;

/// How a command ends: its status, and what it wrote to both streams.
#[derive(Drop, PartialEq)]
pub(crate) struct Ending {
    pub(crate) status: Status,
    pub(crate) answers: Vec<u8>,
    pub(crate) faults: Vec<u8>,
}

impl Ending {
    /// A command that wrote nothing.
    pub(crate) fn nothing(alloc: Global) -> Ending {
        Ending {
            status: Status::Done,
            answers: Vec::new(alloc),
            faults: Vec::new(alloc),
        }
    }

    /// A command that wrote this to standard output.
    pub(crate) fn of_answers(alloc: Global, answers: &[u8]) -> Result<Ending, AllocError> {
        Ok(Ending {
            status: Status::Done,
            answers: Vec::from_slice(alloc, answers)?,
            faults: Vec::new(alloc),
        })
    }

    /// A command that refused its words, and why.
    pub(crate) fn of_fault(alloc: Global, fault: &str) -> Result<Ending, AllocError> {
        Ok(Ending {
            status: Status::BadArguments,
            answers: Vec::new(alloc),
            faults: Vec::from_slice(alloc, fault.as_bytes())?,
        })
    }
}
