//! Why a link has no answer.

/// Why a link wasn't judged or made, though nothing is wrong with it. Nothing was changed.
#[derive(Clone, Copy, Debug, PartialEq, Eq)]
pub enum Unanswered {
    /// The entry into the policy was refused.
    NoEntry,
    /// Memory was refused for a link that would be made.
    NoMemory,
}
