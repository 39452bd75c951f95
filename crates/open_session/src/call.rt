//! What a call asks, and what the policy says about it.
use matcher::AnyProfile;
use names::Perms;
use std::sync::Arc;

/// A call: may this profile open this path with these permissions?
#[derive(Drop)]
pub(crate) struct Call {
    pub(crate) profile: Vec<u8>,
    pub(crate) path: Vec<u8>,
    pub(crate) ask: Perms,
}

/// A call whose profile was found published, in the policy of this version.
#[derive(Drop)]
pub(crate) struct Policed {
    pub(crate) call: Call,
    pub(crate) policy_version: u64,
    pub(crate) profile: Arc<AnyProfile>,
}
