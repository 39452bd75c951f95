//! Where rows with cells for the same bytes were placed before: the search for a base begins there.
ghost use Rattle.std.specs.Prelude.{◌≡◌, ℕ, ◌<◌, ◌++◌, ◌∷◌, [], IfOk, OnOk};
ghost use Rattle.table_image.specs.inner.FirstBases.{AreStarts, IsStartFor};
ghost use Rattle.table_image.specs.declared.taken.Taken.{Taken};
ghost use Rattle.table_image.specs.declared.starts.Slot.{Slot};

use std::alloc::{AllocError, Global};

/// The number of slots.
const SLOTS: usize = 4096;

/// The bytes of a row's cells, and a base below which such a row fits nowhere.
#[derive(Drop)]
pub(crate) struct Slot {
    bytes: Vec<u8>,
    start: usize,
}

/// Slots for sets of bytes. Which slot a set has is a matter of speed alone: a slot counts only for its own bytes.
#[derive(Drop)]
pub(crate) struct Starts {
    alloc: Global,
    slots: Vec<Slot>,
}

impl Starts {
    /// Remembers nothing yet.
    pub(crate) fn new(alloc: Global) -> Result<Starts, AllocError>
        ensures { IfOk result (λ starts. (taken : Taken) → AreStarts taken starts) }
    {
        let mut slots = Vec::new(alloc);
        for _slot in 0..SLOTS {
            push_slot(&mut slots, alloc)?;
        }
        Ok(Starts { alloc, slots })
    }

    /// A base below which a row of these bytes fits nowhere.
    pub(crate) fn start_for(&self, bytes: &[u8]) -> usize
        ensures { (taken : Taken) → AreStarts taken self.now → IsStartFor taken bytes.now result }
    {
        match self.slots.get(slot_of(bytes)) {
            Some(slot) => start_in(slot, bytes),
            None => 0,
        }
    }

    /// Remembers where a row of these bytes was placed.
    pub(crate) fn remember(&mut self, bytes: &[u8], start: usize) -> Result<(), AllocError>
        ensures { OnOk result ((taken : Taken) → AreStarts taken self.old → IsStartFor taken bytes.now start →
            AreStarts taken self.new) }
    {
        let place = slot_of(bytes);
        if place >= self.slots.len() {
            return Ok(());
        }
        let bytes = Vec::from_slice(self.alloc, bytes)?;
        self.slots[place] = Slot { bytes, start };
        Ok(())
    }
}

// Adds a slot, for no bytes.
fn push_slot(slots: &mut Vec<Slot>, alloc: Global) -> Result<(), AllocError>
    ensures { OnOk result ((slot : Slot) × (slot.start ≡ 0) × (slots.new.items ≡ slots.old.items ++ slot ∷ [])) }
{
    slots.push(Slot {
        bytes: Vec::new(alloc),
        start: 0,
    })?;
    Ok(())
}

// The start of a slot, if it is for these bytes, else 0.
fn start_in(slot: &Slot, bytes: &[u8]) -> usize
    ensures { (taken : Taken) → IsStartFor taken slot.now.bytes.items slot.now.start → IsStartFor taken bytes.now result }
{
    if slot.bytes.as_slice() == bytes {
        slot.start
    } else {
        0
    }
}

// The number of the slot for some bytes: a hash of them.
fn slot_of(bytes: &[u8]) -> usize {
    let mut hash = 0u64;
    for byte in bytes {
        hash = hash.wrapping_mul(31).wrapping_add(u64::from(*byte));
    }
    (hash % SLOTS as u64) as usize
}
