//! Entries found by the index of a row.
ghost use Rattle.std.specs.Prelude.{◌≡◌, ◌⊎◌, ◌<◌, ◌≤◌, ◌+◌, IfOk, IfErr};
ghost use Rattle.tree_row.specs.Worlds.{Fewer};
ghost use Rattle.tree_row.specs.Search.{TellsChild, TellsNamed, TellsFound, EncodesNone};

use crate::cells::Cells;
use crate::index::RowIndex;
use crate::slot::{COMPONENT, LENGTHS, PARENT, TEXT_FACTOR, cell_place, slot_word, word_at};
use crate::text::has_text;
use names::LONGEST_COMPONENT;
use path_lookup::Torn;
use row_index::{DELETED_WORD, FREE_WORD, home, next_place};

/// Returns the slot of the entry of a component in the directory of a slot, if there is such an entry. The words of the index are
/// read from the entry's home on, until one names its slot, one is free, or all were read. Each slot that a word names is compared.
pub fn find_child<C: Cells>(
    cells: &mut C,
    directory: usize,
    component: &[u8],
) -> Result<Option<usize>, Torn>
    requires { directory < C.capacity_of (C.kept cells.old) + 1 }
    ensures kept { C.kept cells.new ≡ C.kept cells.old }
    ensures fewer { Fewer (C.may cells.old) (C.may cells.new) }
    ensures ok { IfOk result (TellsFound (C.capacity_of (C.kept cells.old)) (C.may cells.new) directory component.now) }
    ensures err { IfErr result (λ _. C.unknown cells.new ⊎ EncodesNone (C.capacity_of (C.kept cells.old)) (C.may cells.new)) }
{
    let RowIndex { base, length: size } = cells.index();
    let mut place = home(size, directory, component);
    for step in 0..size {
        let word = word_at(cells, base + place)?;
        if word == FREE_WORD {
            return Ok(None);
        }
        match named_child(cells, directory, component, word)? {
            Some(slot) => return Ok(Some(slot)),
            None => place = next_place(size, place),
        }
    }
    Ok(None)
}

// The slot that a word of the index names, if it is that of the entry of a component in the directory of a slot.
fn named_child<C: Cells>(
    cells: &mut C,
    directory: usize,
    component: &[u8],
    word: u64,
) -> Result<Option<usize>, Torn>
    ensures kept { C.kept cells.new ≡ C.kept cells.old }
    ensures fewer { Fewer (C.may cells.old) (C.may cells.new) }
    ensures ok { IfOk result (TellsNamed (C.capacity_of (C.kept cells.old)) (C.may cells.new) directory component.now word) }
    ensures err { IfErr result (λ _. C.unknown cells.new ⊎ (C.capacity_of (C.kept cells.old) + 2 ≤ word)) }
{
    if word <= DELETED_WORD {
        return Ok(None);
    }
    let slot = word - 1;
    if slot > cells.capacity() as u64 {
        return Err(Torn);
    }
    let slot = slot as usize;
    if is_child(cells, directory, component, slot)? {
        return Ok(Some(slot));
    }
    Ok(None)
}

// Whether a slot, if it is used, holds the entry of a component in the directory of a slot. An index names only used slots, so the
// kind isn't read; and the component only if the directory and the length match.
#[tactic(auto, using(crate::proofs::SeenSlots::length_differs, crate::proofs::SeenSlots::too_long))]
fn is_child<C: Cells>(
    cells: &mut C,
    directory: usize,
    component: &[u8],
    slot: usize,
) -> Result<bool, Torn>
    requires { slot < C.capacity_of (C.kept cells.old) + 1 }
    ensures kept { C.kept cells.new ≡ C.kept cells.old }
    ensures fewer { Fewer (C.may cells.old) (C.may cells.new) }
    ensures ok { IfOk result (TellsChild (C.capacity_of (C.kept cells.old)) (C.may cells.new) directory component.now slot) }
    ensures err { IfErr result (λ _. C.unknown cells.new) }
{
    if slot_word(cells, slot, PARENT)? != directory as u64 {
        return Ok(false);
    }
    let lengths = slot_word(cells, slot, LENGTHS)?;
    let count = component.len();
    if lengths % TEXT_FACTOR != count as u64 {
        return Ok(false);
    }
    if count > LONGEST_COMPONENT {
        return Ok(false);
    }
    let base = cell_place(cells, slot, COMPONENT);
    has_text(cells, base, component)
}
