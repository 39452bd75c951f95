use names::Errno;

/// Why a walk over words of which some are known has no end.
#[derive(Clone, Copy, Debug, PartialEq, Eq)]
pub enum Stop {
    /// In each tree whose row agrees with what is known it is refused with this number.
    Refused(Errno),
    /// It needs the word at this place, which isn't known.
    Wants(usize),
    /// No row that encodes a tree agrees with what is known.
    Torn,
    /// Memory was refused for a further word.
    NoMemory,
}
