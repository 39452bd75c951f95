//! What walks that ended well found, as plain data.
use path_lookup::WalkFault;

/// What a path leads to.
#[derive(Drop)]
pub(crate) struct Found {
    pub node: u64,
    pub name: Vec<u8>,
}

/// What a walk found that ended well.
#[derive(Drop)]
pub(crate) struct Answer {
    /// How many changes had been made.
    pub version: u64,
    /// The number of the path.
    pub path: usize,
    pub found: Result<Found, WalkFault>,
}

/// The outcome of the attempts of one walker.
#[derive(Drop)]
pub(crate) struct Answers {
    /// Of those that ended well, in their order.
    pub ok: Vec<Answer>,
    /// How many were concurrent with a change.
    pub busy: u64,
}
