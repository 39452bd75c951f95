//! Unverified tables, from an automaton or from an untrusted source.
use names::{Permission, Record};

/// The tables of an automaton. Anyone may fill them: nothing is known of their contents. There are as many states as `default`
/// has entries, as many cells as `next`, and as many records as `records`.
#[derive(Drop)]
pub struct RawTable {
    /// For each state the state to go to where it has no cell for the byte.
    pub default: Vec<u32>,
    /// For each state the cell of byte 0 in its row.
    pub base: Vec<u32>,
    /// For each state the number of its record.
    pub accept: Vec<u32>,
    /// For each cell the state to go to.
    pub next: Vec<u32>,
    /// For each cell the state that owns it.
    pub check: Vec<u32>,
    /// The record of names that end in a state.
    pub records: Vec<Record>,
    /// The greatest depth that a state may have.
    pub depth_bound: u16,
    /// For each state how many times a byte without a cell may be looked up again at a default: 0 where the default is the state
    /// to go to.
    pub depth: Vec<u32>,
}

impl RawTable {
    ghost use Rattle.std.specs.Prelude.{◌≡◌, ◌↔◌, IsTrue, replicate, vec_len};
    ghost use Rattle.tables.specs.Images.{FitsVersion1};
    ghost use Rattle.tables.specs.Tables.{table_value};

    /// Whether images of version 1 can hold the tables: no state has a depth, and each record has the hits of write for append.
    pub fn fits_version_1(&self) -> bool
        ensures { IsTrue result ↔ FitsVersion1 (table_value self.now) }
    {
        self.is_flat()
            && self.records.iter().all(|record| record.of(Permission::Append)
                == record.of(Permission::Write))
    }

    // Whether no state has a depth.
    fn is_flat(&self) -> bool
        ensures { IsTrue result ↔ ((self.now.depth_bound ≡ 0) × (self.now.depth.items ≡ replicate (vec_len self.now.default) 0)) }
    {
        self.depth_bound == 0
            && self.depth.len() == self.default.len()
            && self.depth.iter().all(|depth| *depth == 0)
    }
}
