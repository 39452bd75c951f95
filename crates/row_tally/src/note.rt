//! What a tally keeps of a slot.

/// The words of two cells of a slot.
#[derive(Clone, Copy)]
pub struct Note {
    /// The word of the cell of its kind.
    pub kind: u64,
    /// The word of the cell of the slot of its directory.
    pub parent: u64,
}
