//! A row as a look.
ghost use Rattle.std.specs.Prelude.{◌≡◌};

use crate::cells::Cells;
use crate::question::{free_slot, is_childless};
use crate::search::find_child;
use crate::slot::{
    COMPONENT, DIRECTORY, FILE, KIND, LENGTHS, LINK, NODE, PARENT, TEXT, TEXT_FACTOR, cell_place,
    slot_word,
};
use crate::text::read_text;
use change_checks::ChangeLook;
use directory_tree::{Kind, LONGEST_LINK_TEXT};
use names::LONGEST_COMPONENT;
use path_lookup::{Look, Torn};

/// An entry, or the root, by the number of its slot.
#[derive(Clone, Copy, Debug, PartialEq, Eq)]
pub struct RowEntry {
    slot: usize,
}

impl RowEntry {
    /// The number of its slot.
    pub fn slot(self) -> usize
        ensures { result ≡ self.slot }
    {
        self.slot
    }
}

/// A row as a look: what its words say about the tree that it encodes.
#[derive(Drop)]
pub struct RowLook<C: Cells> {
    /// The row's cells.
    pub cells: C,
}

impl<C: Cells> RowLook<C> {
    /// A look over these cells.
    pub fn new(cells: C) -> RowLook<C>
        ensures { result.cells ≡ cells }
    {
        RowLook { cells }
    }

    /// The cells.
    pub fn into_cells(self) -> C
        ensures { result ≡ self.cells }
    {
        self.cells
    }
}

impl<C: Cells> Look for RowLook<C> {
    ghost use Rattle.tree_row.specs.Worlds.{SeesBy, Knows};
    ghost use Rattle.tree_row.specs.inner.KnownEntries.{knows_stands};

    type Entry = RowEntry;

    ghost Kept = { C.Kept };

    ghost kept = { λ l. C.kept l.cells };

    ghost sees = { λ l w. SeesBy (C.capacity_of (C.kept l.cells)) (C.may l.cells) w };

    ghost means = { λ e w. w.named e.slot };

    ghost knows = { λ l e. Knows (C.capacity_of (C.kept l.cells)) (C.may l.cells) e.slot };

    ghost lacks = { λ l. C.unknown l.cells };

    ghost stands = { λ l w e seen known. knows_stands (C.capacity_of (C.kept l.cells)) (C.may l.cells) w e.slot seen known };

    fn root(&self) -> RowEntry {
        RowEntry { slot: 0 }
    }

    fn child(&mut self, directory: RowEntry, component: &[u8]) -> Result<Option<RowEntry>, Torn> {
        let found = find_child(&mut self.cells, directory.slot, component)?;
        match found {
            Some(slot) => Ok(Some(RowEntry { slot })),
            None => Ok(None),
        }
    }

    fn kind(&mut self, entry: RowEntry) -> Result<Kind, Torn> {
        if entry.slot == 0 {
            return Ok(Kind::Directory);
        }
        let kind = slot_word(&mut self.cells, entry.slot, KIND)?;
        if kind == DIRECTORY {
            return Ok(Kind::Directory);
        }
        if kind == FILE {
            return Ok(Kind::File);
        }
        if kind == LINK {
            return Ok(Kind::Link);
        }
        Err(Torn)
    }

    fn node(&mut self, entry: RowEntry) -> Result<u64, Torn> {
        if entry.slot == 0 {
            return Ok(1);
        }
        slot_word(&mut self.cells, entry.slot, NODE)
    }

    fn parent(&mut self, entry: RowEntry) -> Result<Option<RowEntry>, Torn> {
        if entry.slot == 0 {
            return Ok(None);
        }
        let slots = self.cells.capacity() + 1;
        let parent = slot_word(&mut self.cells, entry.slot, PARENT)?;
        if parent >= slots as u64 {
            return Err(Torn);
        }
        Ok(Some(RowEntry {
            slot: parent as usize,
        }))
    }

    fn component(
        &mut self,
        entry: RowEntry,
        room: &mut [u8; LONGEST_COMPONENT],
    ) -> Result<usize, Torn> {
        if entry.slot == 0 {
            return Ok(0);
        }
        let lengths = slot_word(&mut self.cells, entry.slot, LENGTHS)?;
        let count = (lengths % TEXT_FACTOR) as usize;
        if count == 0 {
            return Err(Torn);
        }
        if count > LONGEST_COMPONENT {
            return Err(Torn);
        }
        let base = cell_place(&self.cells, entry.slot, COMPONENT);
        read_text(&mut self.cells, base, count, room)?;
        Ok(count)
    }

    fn link_text(
        &mut self,
        entry: RowEntry,
        room: &mut [u8; LONGEST_LINK_TEXT],
    ) -> Result<usize, Torn> {
        if entry.slot == 0 {
            return Ok(0);
        }
        let lengths = slot_word(&mut self.cells, entry.slot, LENGTHS)?;
        let count = (lengths / TEXT_FACTOR) as usize;
        if count > LONGEST_LINK_TEXT {
            return Err(Torn);
        }
        let base = cell_place(&self.cells, entry.slot, TEXT);
        read_text(&mut self.cells, base, count, room)?;
        Ok(count)
    }
}

impl<C: Cells> ChangeLook for RowLook<C> {
    ghost use Rattle.std.proofs.Common.{ap};

    ghost capacity = { λ l. C.capacity_of (C.kept l.cells) };

    ghost capacity_kept = { λ before after same. ap C.capacity_of same };

    fn is_empty(&mut self, directory: RowEntry) -> Result<bool, Torn> {
        is_childless(&mut self.cells, directory.slot)
    }

    fn has_room(&mut self) -> Result<bool, Torn> {
        match free_slot(&mut self.cells)? {
            Some(_) => Ok(true),
            None => Ok(false),
        }
    }

    fn most_entries(&self) -> usize {
        self.cells.capacity()
    }
}
