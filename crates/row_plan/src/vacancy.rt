//! A place of a row's index that a plan vacates.
ghost use Rattle.std.specs.Prelude.{◌≡◌, ◌<◌, ◌≤◌, ◌+◌, ◌-◌, ◌^◌, ℕ, List, OnOk, length};
ghost use Rattle.names.specs.declared.limits.TheConstants.{LONGEST_COMPONENT};
ghost use Rattle.row_index.specs.Edits.{freed, passes, place_after, vacated};
ghost use Rattle.tree_row.specs.Slots.{slot_at, IsUsed};
ghost use Rattle.tree_row.specs.Rows.{row_length, homes_in};
ghost use Rattle.tree_row.specs.Search.{InEncoding};
ghost use Rattle.row_rule.specs.Row.{write};
ghost use Rattle.row_plan.specs.Plan.{IsLean};
ghost use Rattle.row_plan.specs.inner.Rows.{Drafts, IsRead};
ghost use Rattle.row_plan.specs.inner.Acts.{IsTreeRead};
ghost use Rattle.row_plan.specs.inner.Words.{IsWordOf, NamesIn};

use crate::draft::{planned_word, set_word};
use names::{LONGEST_COMPONENT, NoMemory};
use row_index::{DELETED_WORD, FREE_WORD, home, next_place, passes, place_before};
use row_rule::Cell;
use tree_row::{COMPONENT, Cells, LENGTHS, PARENT, TEXT_FACTOR, cell_place, read_text, slot_word};

/// Makes a plan vacate a place of the index. Of the words after it, up to one that is free, each that a search would no longer
/// reach moves back. The place that is vacant at last becomes free if a free word was met, and deleted otherwise.
pub(crate) fn vacate<C: Cells>(
    cells: &mut C,
    plan: &mut Vec<Cell>,
    base: usize,
    size: usize,
    place: usize,
) -> Result<(), NoMemory>
    requires within { base + size ≤ row_length (C.capacity_of (C.kept cells.old)) }
    requires small { base + size < 2 ^ 32 }
    requires size { (k : ℕ) × (size ≡ 2 ^ k) }
    requires place { place < size }
    requires read { IsTreeRead (C.capacity_of (C.kept cells.old)) (C.whole (C.kept cells.old)) }
    requires planned { InEncoding (C.capacity_of (C.kept cells.old)) (C.whole (C.kept cells.old)) (λ row. IsLean row plan.old.items
        × NamesIn (C.capacity_of (C.kept cells.old)) base size row (write row plan.old.items)) }
    ensures kept { C.kept cells.new ≡ C.kept cells.old }
    ensures ok { OnOk result (InEncoding (C.capacity_of (C.kept cells.old)) (C.whole (C.kept cells.old))
        (λ row. Drafts row plan.new.items
        (vacated base size (homes_in size row) (write row plan.old.items) place (place_after size place) (size - 1)))) }
{
    let mut vacant = place;
    let mut place = next_place(size, place);
    for step in 1..size {
        let word = planned_word(cells, plan, base + place);
        if word == FREE_WORD {
            return free_places(cells, plan, base, size, vacant);
        }
        if moves_back(cells, size, word, vacant, place) {
            set_word(cells, plan, base + vacant, word)?;
            vacant = place;
        }
        place = next_place(size, place);
    }
    set_word(cells, plan, base + vacant, DELETED_WORD)
}

// Makes a plan free a place of the index, and the deleted words directly before it.
fn free_places<C: Cells>(
    cells: &mut C,
    plan: &mut Vec<Cell>,
    base: usize,
    size: usize,
    place: usize,
) -> Result<(), NoMemory>
    requires within { base + size ≤ row_length (C.capacity_of (C.kept cells.old)) }
    requires small { base + size < 2 ^ 32 }
    requires place { place < size }
    requires known { IsRead (C.whole (C.kept cells.old)) }
    ensures kept { C.kept cells.new ≡ C.kept cells.old }
    ensures ok { OnOk result ((row after : List ℕ) → C.whole (C.kept cells.old) row → base + size ≤ length row
        → Drafts row plan.old.items after → Drafts row plan.new.items (freed base size after place)) }
{
    set_word(cells, plan, base + place, FREE_WORD)?;
    let mut place = place_before(size, place);
    for step in 0..size {
        if planned_word(cells, plan, base + place) != DELETED_WORD {
            return Ok(());
        }
        set_word(cells, plan, base + place, FREE_WORD)?;
        place = place_before(size, place);
    }
    Ok(())
}

// Whether a word at a place of the index names a slot whose way from its home passes the vacant place.
fn moves_back<C: Cells>(cells: &mut C, size: usize, word: u64, vacant: usize, place: usize) -> bool
    requires size { (k : ℕ) × (size ≡ 2 ^ k) }
    requires vacant { vacant < size }
    requires place { place < size }
    requires read { IsTreeRead (C.capacity_of (C.kept cells.old)) (C.whole (C.kept cells.old)) }
    requires word { InEncoding (C.capacity_of (C.kept cells.old)) (C.whole (C.kept cells.old))
        (λ row. IsWordOf (C.capacity_of (C.kept cells.old)) row word) }
    ensures kept { C.kept cells.new ≡ C.kept cells.old }
    ensures passes { InEncoding (C.capacity_of (C.kept cells.old)) (C.whole (C.kept cells.old))
        (λ row. result ≡ passes size (homes_in size row) word vacant place) }
{
    if word <= DELETED_WORD {
        return false;
    }
    let home = home_of_slot(cells, size, (word - 1) as usize);
    passes(size, home, vacant, place)
}

// The place of the index at which the search for the entry of a slot begins.
fn home_of_slot<C: Cells>(cells: &mut C, size: usize, slot: usize) -> usize
    requires size { (k : ℕ) × (size ≡ 2 ^ k) }
    requires read { IsTreeRead (C.capacity_of (C.kept cells.old)) (C.whole (C.kept cells.old)) }
    requires used { InEncoding (C.capacity_of (C.kept cells.old)) (C.whole (C.kept cells.old))
        (λ row. IsUsed (C.capacity_of (C.kept cells.old) + 1) (slot_at row) slot) }
    ensures kept { C.kept cells.new ≡ C.kept cells.old }
    ensures home { InEncoding (C.capacity_of (C.kept cells.old)) (C.whole (C.kept cells.old)) (λ row. result ≡ homes_in size row slot) }
    ensures within { result < size }
{
    // The capacity is at most `MOST_ENTRIES`, so the number of a directory's slot is small.
    let _most = cells.capacity();
    let count = component_length(cells, slot);
    let Ok(directory) = slot_word(cells, slot, PARENT) else {
        unreachable!();
    };
    let base = cell_place(cells, slot, COMPONENT);
    let mut room = [0; LONGEST_COMPONENT];
    let Ok(()) = read_text(cells, base, count, &mut room) else {
        unreachable!();
    };
    home(size, directory as usize, &room[..count])
}

// The number of bytes of the component of an entry, by its slot.
fn component_length<C: Cells>(cells: &mut C, slot: usize) -> usize
    requires read { IsTreeRead (C.capacity_of (C.kept cells.old)) (C.whole (C.kept cells.old)) }
    requires used { InEncoding (C.capacity_of (C.kept cells.old)) (C.whole (C.kept cells.old))
        (λ row. IsUsed (C.capacity_of (C.kept cells.old) + 1) (slot_at row) slot) }
    ensures kept { C.kept cells.new ≡ C.kept cells.old }
    ensures length { InEncoding (C.capacity_of (C.kept cells.old)) (C.whole (C.kept cells.old))
        (λ row. result ≡ length (slot_at row slot).component) }
    ensures short { result ≤ LONGEST_COMPONENT }
{
    let Ok(lengths) = slot_word(cells, slot, LENGTHS) else {
        unreachable!();
    };
    (lengths % TEXT_FACTOR) as usize
}
