//! Questions about single slots of a row.
ghost use Rattle.std.specs.Prelude.{◌≡◌, ◌<◌, ◌+◌, IfOk, IfErr};
ghost use Rattle.tree_row.specs.Worlds.{Fewer};
ghost use Rattle.tree_row.specs.Questions.{TellsEntryOf, TellsChildless, TellsFree};

use crate::cells::Cells;
use crate::slot::{FREE, KIND, PARENT, slot_word};
use path_lookup::Torn;

/// Whether a slot past the root's holds an entry of the directory of a slot. Reads one word of a free slot, two of any other.
pub fn is_entry_of<C: Cells>(cells: &mut C, directory: usize, slot: usize) -> Result<bool, Torn>
    requires past { 0 < slot }
    requires slot { slot < C.capacity_of (C.kept cells.old) + 1 }
    ensures kept { C.kept cells.new ≡ C.kept cells.old }
    ensures fewer { Fewer (C.may cells.old) (C.may cells.new) }
    ensures ok { IfOk result (TellsEntryOf (C.capacity_of (C.kept cells.old)) (C.may cells.new) directory slot) }
    ensures err { IfErr result (λ _. C.unknown cells.new) }
{
    let kind = slot_word(cells, slot, KIND)?;
    if kind == FREE {
        return Ok(false);
    }
    Ok(slot_word(cells, slot, PARENT)? == directory as u64)
}

/// Whether no slot holds an entry of the directory of a slot. Unless the cells know it, one or two words of each slot are read, up
/// to the first that does.
pub fn is_childless<C: Cells>(cells: &mut C, directory: usize) -> Result<bool, Torn>
    requires { directory < C.capacity_of (C.kept cells.old) + 1 }
    ensures kept { C.kept cells.new ≡ C.kept cells.old }
    ensures fewer { Fewer (C.may cells.old) (C.may cells.new) }
    ensures ok { IfOk result (TellsChildless (C.capacity_of (C.kept cells.old)) (C.may cells.new) directory) }
    ensures err { IfErr result (λ _. C.unknown cells.new) }
{
    if let Some(known) = cells.known_childless(directory) {
        return Ok(known);
    }
    let slots = cells.capacity() + 1;
    for slot in 1..slots {
        if is_entry_of(cells, directory, slot)? {
            return Ok(false);
        }
    }
    Ok(true)
}

/// Returns the first free slot, if one is free. Reads one word of each slot from the first candidate up to it.
pub fn free_slot<C: Cells>(cells: &mut C) -> Result<Option<usize>, Torn>
    ensures kept { C.kept cells.new ≡ C.kept cells.old }
    ensures fewer { Fewer (C.may cells.old) (C.may cells.new) }
    ensures ok { IfOk result (TellsFree (C.capacity_of (C.kept cells.old)) (C.may cells.new)) }
    ensures err { IfErr result (λ _. C.unknown cells.new) }
{
    let slots = cells.capacity() + 1;
    for slot in cells.first_candidate()..slots {
        if slot_word(cells, slot, KIND)? == FREE {
            return Ok(Some(slot));
        }
    }
    Ok(None)
}
