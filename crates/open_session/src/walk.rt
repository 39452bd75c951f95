//! A walk that reads the row a word at a time.
use crate::WalkWords;
use crate::call::Policed;
use mediation::Reached;
use names::Errno;
use row_keeper::History;

/// What a walk does next, or how it ended. Once it has ended, it reads the count again.
#[derive(Clone, Copy)]
pub(crate) enum Next {
    /// It reads the word at this place.
    Read(usize),
    /// The count was odd, so nothing was read.
    Disturbed,
    /// The words decide that this file is reached. Its name is at the front of the session's room.
    Reached(Reached),
    /// The words decide that this is the error.
    Refused(Errno),
    /// No row that encodes a tree has these words: the row was being changed.
    Torn,
}

/// A walk that has read the count once.
#[derive(Drop)]
pub(crate) struct Walk {
    pub(crate) policed: Policed,
    /// The count that it read.
    pub(crate) noted: u64,
    /// The changes that had been made then.
    pub(crate) seen: History,
    pub(crate) words: WalkWords,
    pub(crate) next: Next,
}

/// A walk that has read the count again.
#[derive(Drop)]
pub(crate) struct Checked {
    pub(crate) walk: Walk,
    /// The count as it was read last.
    pub(crate) last: u64,
    /// The changes that had been made then.
    pub(crate) seen: History,
}
