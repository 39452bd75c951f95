//! The stages of a session's call.
use crate::call::{Call, Policed};
use crate::walk::{Checked, Walk};

/// The stage of a session's call.
#[derive(Drop)]
pub(crate) enum Stage {
    Resting,
    Begun(Call),
    /// The profile wasn't published in the policy of this version.
    Unpublished(Call, u64),
    Policed(Policed),
    Walking(Walk),
    Checked(Checked),
}
