//! How a call differs from the same call of a run in which no memory is refused.
ghost use Rattle.std.specs.Prelude.{◌≡◌, ◌↔◌, IfErr, IsOk, IsTrue};

use crate::call::Call;
use std::{fmt, io};

/// How a call differs.
#[derive(Clone, Copy, Debug, PartialEq, Eq)]
pub enum How {
    /// It is refused for another reason than memory.
    Fails,
    /// It isn't answered, though memory isn't refused, or not again.
    NoAnswer,
    /// It was refused, and something had changed.
    Changes,
    /// It answers otherwise than the call that it is compared with.
    Answers,
}

/// A call that differs.
#[derive(Clone, Copy, Debug, PartialEq, Eq)]
pub struct Difference {
    call: Call,
    how: How,
}

impl Difference {
    pub fn new(call: Call, how: How) -> Difference
        ensures call { result.call ≡ call }
        ensures how { result.how ≡ how }
    {
        Difference { call, how }
    }
}

impl fmt::Display for Difference {
    fn fmt<W: fmt::Write>(&self, f: &mut fmt::Formatter<W>) -> fmt::Result {
        let call = self.call;
        match self.how {
            How::Fails => write!(f, "{call:?} is refused, and not for memory"),
            How::NoAnswer => write!(f, "{call:?} has no answer"),
            How::Changes => write!(f, "{call:?} is refused, and something has changed"),
            How::Answers => write!(f, "{call:?} has another answer"),
        }
    }
}

/// Whether a call is as it is to be.
pub fn expect(is: bool, call: Call, how: How) -> Result<(), Difference>
    ensures ok { IsOk result ↔ IsTrue is }
    ensures err { IfErr result (λ difference. (difference.call ≡ call) × (difference.how ≡ how)) }
{
    if is {
        Ok(())
    } else {
        Err(Difference::new(call, how))
    }
}

/// Why a part ends before its end.
#[derive(Drop)]
pub enum Stop {
    Difference(Difference),
    /// A line can't be printed.
    Output(io::Error),
}

impl From<Difference> for Stop {
    fn from(difference: Difference) -> Stop {
        Stop::Difference(difference)
    }
}

impl From<io::Error> for Stop {
    fn from(error: io::Error) -> Stop {
        Stop::Output(error)
    }
}
