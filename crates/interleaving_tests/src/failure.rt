//! Why a scene can't be tried.
use std::alloc::{AllocError, AllocFailed};

#[derive(Clone, Copy, Debug, PartialEq, Eq)]
pub(crate) enum Failure {
    NoMemory,
    /// The scene has an invalid part: a path, a profile, permissions or the number of a session. A profile whose compilation
    /// runs out of memory is reported so, too.
    NotAScene,
    /// Somebody whose turn it is can take no event.
    Stuck,
    TooManyRuns,
}

impl Failure {
    pub(crate) fn text(self) -> &'static str {
        match self {
            Failure::NoMemory => "no memory",
            Failure::NotAScene => "a scene that is none",
            Failure::Stuck => "stuck",
            Failure::TooManyRuns => "too many runs",
        }
    }
}

impl From<AllocError> for Failure {
    fn from(_refusal: AllocError) -> Failure {
        Failure::NoMemory
    }
}

impl<T: Drop> From<AllocFailed<T>> for Failure {
    fn from(_refusal: AllocFailed<T>) -> Failure {
        Failure::NoMemory
    }
}
