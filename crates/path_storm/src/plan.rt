//! The size of a storm, and its outcome.

/// The number of sessions that open the file, how often each of them does, and the number of concurrent renames and new profiles.
#[derive(Clone, Copy, Debug)]
pub struct Plan {
    pub sessions: u32,
    pub opens: u64,
    pub changes: u64,
}

/// The number of answers, and how many of them are not justified by what was changed.
#[derive(Clone, Copy, Debug, PartialEq, Eq)]
pub struct StormReport {
    pub answers: u64,
    pub unjustified: u64,
}
