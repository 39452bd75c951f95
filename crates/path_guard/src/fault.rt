//! Why a guard gives no session.

/// Why there is no new session.
#[derive(Clone, Copy, Debug, PartialEq, Eq)]
pub enum SessionFault {
    /// All places of walkers, or of readers of the policy, are taken.
    NoSeat,
    NoMemory,
}
