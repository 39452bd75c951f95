//! Why there is no search.
use names::NoMemory;
use std::alloc::AllocError;
use thiserror::Error;

/// Why what names lead to isn't listed.
#[derive(Clone, Copy, Debug, PartialEq, Eq, Error)]
pub enum SearchFault {
    /// Names lead to more than 4,194,304 different states of the three automata.
    #[error("too many states")]
    TooManyStates,
    /// Memory was refused; nothing is said about the automata.
    #[error("{}", NoMemory)]
    NoMemory,
}

impl From<AllocError> for SearchFault {
    ghost use Rattle.std.specs.Prelude.{◌≡◌};
    ghost use Rattle.automaton_search.specs.declared.fault.SearchFault.TheVariants as fault;

    ghost from_gives = { λ _ given. given ≡ fault.NoMemory };

    fn from(_error: AllocError) -> SearchFault {
        SearchFault::NoMemory
    }
}
