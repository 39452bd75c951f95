//! What a plan sets among the words of a row's index. The words are read as the plan leaves them.
ghost use Rattle.std.specs.Prelude.{◌≡◌, ◌≢◌, ◌<◌, ◌≤◌, ◌+◌, ◌^◌, ℕ, List, Some, OnOk, IfSome, IfNone};
ghost use Rattle.row_index.specs.Places.{around};
ghost use Rattle.row_index.specs.Index.{IsVacancy, Ends};
ghost use Rattle.row_index.specs.Edits.{index_at};
ghost use Rattle.row_plan.specs.inner.Rows.{Drafts, IsRead};
ghost use Rattle.row_plan.specs.inner.Acts.{IsTreeRead};
ghost use Rattle.row_plan.specs.inner.Planned.{search_for, IsInRow, MayAdd, MayRemove, PlansAddition, PlansRemoval};

use crate::draft::{planned_word, set_word};
use crate::vacancy::vacate;
use names::NoMemory;
use row_index::{DELETED_WORD, FREE_WORD, home, next_place, word_of};
use row_rule::Cell;
use tree_row::Cells;

// A search in the index: where the index begins in the row, its length, and the place at which the search begins.
#[derive(Drop)]
struct Search {
    base: usize,
    size: usize,
    home: usize,
}

// The search for a component in a directory.
fn search_for<C: Cells>(cells: &C, directory: usize, component: &[u8]) -> Search
    requires { directory < C.capacity_of (C.kept cells.now) + 1 }
    ensures search { result ≡ search_for (C.capacity_of (C.kept cells.now)) directory component.now }
    ensures in_row { IsInRow (C.capacity_of (C.kept cells.now)) result }
{
    let index = cells.index();
    Search {
        base: index.base,
        size: index.length,
        home: home(index.length, directory, component),
    }
}

/// Makes a plan add a slot to the index: the first word that is free or deleted, from the home of a component in a directory on,
/// names the slot.
pub(crate) fn add_to_index<C: Cells>(
    cells: &mut C,
    plan: &mut Vec<Cell>,
    slot: usize,
    directory: usize,
    component: &[u8],
) -> Result<(), NoMemory>
    requires slot { slot < C.capacity_of (C.kept cells.old) + 1 }
    requires directory { directory < C.capacity_of (C.kept cells.old) + 1 }
    requires vacant { MayAdd (C.capacity_of (C.kept cells.old)) (C.whole (C.kept cells.old)) plan.old.items directory component.now }
    ensures kept { C.kept cells.new ≡ C.kept cells.old }
    ensures ok { OnOk result (PlansAddition (C.capacity_of (C.kept cells.old)) (C.whole (C.kept cells.old)) directory component.now slot
        plan.old.items plan.new.items) }
{
    let search = search_for(cells, directory, component);
    let Some(place) = vacant_place(cells, plan, &search) else {
        unreachable!();
    };
    set_word(cells, plan, search.base + place, word_of(slot))
}

/// Makes a plan remove a slot from the index: the place of its word is vacated. The slot's entry is that of a component in a
/// directory.
pub(crate) fn remove_from_index<C: Cells>(
    cells: &mut C,
    plan: &mut Vec<Cell>,
    slot: usize,
    directory: usize,
    component: &[u8],
) -> Result<(), NoMemory>
    requires slot { slot < C.capacity_of (C.kept cells.old) + 1 }
    requires directory { directory < C.capacity_of (C.kept cells.old) + 1 }
    requires read { IsTreeRead (C.capacity_of (C.kept cells.old)) (C.whole (C.kept cells.old)) }
    requires planned { MayRemove (C.capacity_of (C.kept cells.old)) (C.whole (C.kept cells.old)) plan.old.items directory component.now
        (Some slot) }
    ensures kept { C.kept cells.new ≡ C.kept cells.old }
    ensures ok { OnOk result (PlansRemoval (C.capacity_of (C.kept cells.old)) (C.whole (C.kept cells.old)) (Some slot) plan.old.items
        plan.new.items) }
{
    let search = search_for(cells, directory, component);
    let Some(place) = named_place(cells, plan, &search, slot) else {
        unreachable!();
    };
    vacate(cells, plan, search.base, search.size, place)
}

// The place of the first word from a home on that is free or deleted.
fn vacant_place<C: Cells>(cells: &mut C, plan: &[Cell], search: &Search) -> Option<usize>
    requires search { IsInRow (C.capacity_of (C.kept cells.old)) search.now }
    requires known { IsRead (C.whole (C.kept cells.old)) }
    ensures kept { C.kept cells.new ≡ C.kept cells.old }
    ensures some { IfSome result (λ p. (p < search.now.size) × ((steps : ℕ) × (p ≡ around search.now.size (search.now.home + steps))
        × ((row after : List ℕ) → C.whole (C.kept cells.old) row → Drafts row plan.now after
        → IsVacancy search.now.size (index_at after search.now.base) search.now.home steps))) }
    ensures none { IfNone result ((row after : List ℕ) → C.whole (C.kept cells.old) row → Drafts row plan.now after
        → (i : ℕ) → i < search.now.size → 2 ≤ index_at after search.now.base (around search.now.size (search.now.home + i))) }
{
    let mut place = search.home;
    for step in 0..search.size {
        if planned_word(cells, plan, search.base + place) <= DELETED_WORD {
            return Some(place);
        }
        place = next_place(search.size, place);
    }
    None
}

// The place of the word that names a slot: words are read from a home on, until one names the slot, one is free, or all were read.
fn named_place<C: Cells>(
    cells: &mut C,
    plan: &[Cell],
    search: &Search,
    slot: usize,
) -> Option<usize>
    requires search { IsInRow (C.capacity_of (C.kept cells.old)) search.now }
    requires slot { slot < 2 ^ 32 }
    requires known { IsRead (C.whole (C.kept cells.old)) }
    ensures kept { C.kept cells.new ≡ C.kept cells.old }
    ensures some { IfSome result (λ p. (p < search.now.size) × ((row after : List ℕ) → C.whole (C.kept cells.old) row
        → Drafts row plan.now after → index_at after search.now.base p ≡ slot + 1)) }
    ensures none { IfNone result ((steps : ℕ) × ((row after : List ℕ) → C.whole (C.kept cells.old) row → Drafts row plan.now after
        → Ends search.now.size (index_at after search.now.base) search.now.home steps
        × ((i : ℕ) → i < steps → index_at after search.now.base (around search.now.size (search.now.home + i)) ≢ slot + 1))) }
{
    let mut place = search.home;
    for step in 0..search.size {
        let word = planned_word(cells, plan, search.base + place);
        if word == word_of(slot) {
            return Some(place);
        }
        if word == FREE_WORD {
            return None;
        }
        place = next_place(search.size, place);
    }
    None
}

/// Removes a slot from the index, if one is given.
pub(crate) fn remove_any<C: Cells>(
    cells: &mut C,
    plan: &mut Vec<Cell>,
    slot: Option<usize>,
    directory: usize,
    component: &[u8],
) -> Result<(), NoMemory>
    requires slot { IfSome slot (λ s. s < C.capacity_of (C.kept cells.old) + 1) }
    requires directory { directory < C.capacity_of (C.kept cells.old) + 1 }
    requires read { IsTreeRead (C.capacity_of (C.kept cells.old)) (C.whole (C.kept cells.old)) }
    requires planned { MayRemove (C.capacity_of (C.kept cells.old)) (C.whole (C.kept cells.old)) plan.old.items directory component.now
        slot }
    ensures kept { C.kept cells.new ≡ C.kept cells.old }
    ensures ok { OnOk result (PlansRemoval (C.capacity_of (C.kept cells.old)) (C.whole (C.kept cells.old)) slot plan.old.items
        plan.new.items) }
{
    match slot {
        Some(slot) => remove_from_index(cells, plan, slot, directory, component),
        None => Ok(()),
    }
}
