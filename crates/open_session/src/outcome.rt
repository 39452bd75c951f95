//! Outcomes of a walk.
use crate::words::WalkWords;
use mediation::Reached;
use names::Errno;

/// What the words that were read decide.
#[derive(Clone, Copy, Debug, PartialEq, Eq)]
pub enum Outcome {
    /// The open reaches this file.
    Reached(Reached),
    /// It is refused with this number.
    Refused(Errno),
    /// No row that encodes a tree has these words.
    Torn,
}

/// Why the words that were read decide nothing.
#[derive(Clone, Copy, Debug, PartialEq, Eq)]
pub enum Lack {
    /// The walk needs the word at this place, and no more words may be read.
    Wants(usize),
    /// It needs the word at this place, and memory for it was refused.
    NoMemory(usize),
}

/// The outcome of a walk.
#[derive(Drop)]
pub struct Reach {
    /// The words that were read, in this walk and before it.
    pub words: WalkWords,
    /// What they decide, or why they decide nothing.
    pub end: Result<Outcome, Lack>,
}
