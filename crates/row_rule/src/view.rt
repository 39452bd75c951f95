//! What the seats of a row know. No values of these types are made: only contracts use them.
use crate::cell::Cell;
use directory_tree::Change;
use std::collections::LinkedList;

/// A change that the keeper has begun, and the cells that it still has to set, the next one first.
pub struct Pending {
    pub change: Change<'static>,
    pub left: LinkedList<Cell>,
}

/// What the keeper knows: the changes that it has made, oldest first, and the current cells.
pub struct KeeperView {
    pub history: LinkedList<Change<'static>>,
    pub cells: LinkedList<u64>,
    pub pending: Option<Pending>,
    /// What a walker had seen when its seat was last taken in, until the keeper learns that this is a prefix of its history.
    pub met: LinkedList<Change<'static>>,
}

/// What a walker knows: the changes that had been made when it last read the count, how often it read the count, the count
/// that its walk began with and the one that it read last, and the cells read in this walk, the newest first.
pub struct WalkerView {
    pub seen: LinkedList<Change<'static>>,
    pub count_reads: u64,
    pub noted: u64,
    pub last: u64,
    pub reads: LinkedList<Cell>,
}

/// What a seat knows.
pub enum View {
    Keeps(KeeperView),
    Walks(WalkerView),
}
