//! Why a question isn't answered.
ghost use Rattle.std.specs.Prelude.{◌≡◌};
ghost use Rattle.profile_questions.specs.Faults.{fault_number};

use automaton_search::SearchFault;
use names::NoMemory;
use thiserror::Error;

/// Why a question about profiles isn't answered.
#[derive(Clone, Copy, Debug, PartialEq, Eq, Error)]
pub enum QuestionFault {
    /// Names have more than 4,194,304 different sets of live places of all rules that are compared.
    #[error("too many states")]
    TooManyStates,
    /// Memory was refused; nothing is said about the rules.
    #[error("{}", NoMemory)]
    NoMemory,
}

impl QuestionFault {
    /// The number of the fault, 1 or 2.
    pub fn number(self) -> u16
        ensures { result ≡ fault_number self }
    {
        match self {
            QuestionFault::TooManyStates => 1,
            QuestionFault::NoMemory => 2,
        }
    }
}

impl From<SearchFault> for QuestionFault {
    ghost use Rattle.std.specs.Prelude.{◌≡◌};
    ghost use Rattle.profile_questions.specs.Faults.{of_search};

    ghost from_gives = { λ fault given. given ≡ of_search fault };

    fn from(fault: SearchFault) -> QuestionFault {
        match fault {
            SearchFault::TooManyStates => QuestionFault::TooManyStates,
            SearchFault::NoMemory => QuestionFault::NoMemory,
        }
    }
}
