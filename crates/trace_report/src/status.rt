//! How a run of the program ended.
ghost use Rattle.std.specs.Prelude.{◌≡◌};
ghost use Rattle.trace_report.specs.Status.{status_code};

/// How a run of the program ended.
#[derive(Clone, Copy, Debug, PartialEq, Eq)]
pub enum Status {
    /// It did what was asked. Its answer was written, unless it is the status alone.
    Done,
    /// The same, and the answer is negative: an expectation of a test doesn't hold, or there is none; a question about all names found
    /// something; or the status is the answer, and the name isn't allowed.
    Unmet,
    /// The command line can't be followed, and nothing was read.
    BadArguments,
    /// What was read is refused: a text, its profile, or an image.
    Refused,
    /// Reading failed.
    InputFailed,
    /// An answer, or a file that was asked for, couldn't be written, or not all of it.
    OutputFailed,
    /// The message of a fault couldn't be written, or not all of it.
    FaultsFailed,
    /// Memory was refused.
    NoMemory,
}

impl Status {
    /// The exit code of the process.
    pub fn code(self) -> u8
        ensures { result ≡ status_code self }
    {
        match self {
            Status::Done => 0,
            Status::Unmet => 1,
            Status::BadArguments => 2,
            Status::Refused | Status::InputFailed | Status::OutputFailed | Status::FaultsFailed =>
                3,
            Status::NoMemory => 4,
        }
    }
}
