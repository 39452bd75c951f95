use names::Perms;

/// What an open asks, by which profile, and at which versions of the tree and of the policy.
#[derive(Clone, Copy)]
pub struct Question<'a> {
    pub path: &'a [u8],
    /// The name of the profile.
    pub profile: &'a [u8],
    pub ask: Perms,
    pub tree_version: u64,
    pub policy_version: u64,
}
