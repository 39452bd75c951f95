//! A plan as it is made: the cells to be set, without those whose word is there already.
ghost use Rattle.std.specs.Prelude.{◌≡◌, ◌≢◌, ◌<◌, ◌≤◌, ◌+◌, ◌/◌, ℕ, List, OnOk, IfSome, IfNone, length, slice_index};
ghost use Rattle.std.specs.Prelude.{slice_index_or, slice_set};
ghost use Rattle.std.specs.List.{All};
ghost use Rattle.tree_row.specs.Rows.{row_length};
ghost use Rattle.row_plan.specs.Leaves.{with_words, with_text};
ghost use Rattle.row_plan.specs.inner.Rows.{Drafts, SameFrom, IsRead};
ghost use Rattle.tree_row.specs.inner.Words.{IsPacked};

use names::NoMemory;
use row_rule::Cell;
use tree_row::{Cells, packed_word};

/// Adds a cell to a plan, unless its word is there already.
pub(crate) fn add_cell<C: Cells>(
    cells: &mut C,
    plan: &mut Vec<Cell>,
    place: usize,
    word: u64,
) -> Result<(), NoMemory>
    requires within { place < row_length (C.capacity_of (C.kept cells.old)) }
    requires known { IsRead (C.whole (C.kept cells.old)) }
    ensures kept { C.kept cells.new ≡ C.kept cells.old }
    ensures ok { OnOk result ((row after : List ℕ) → C.whole (C.kept cells.old) row → place < length row → Drafts row plan.old.items after
        → slice_index after place ≡ slice_index row place → Drafts row plan.new.items (slice_set after place word)) }
{
    let Some(standing) = cells.word(place) else {
        unreachable!();
    };
    if standing == word {
        return Ok(());
    }
    match plan.push(Cell { place, word }) {
        Ok(()) => Ok(()),
        Err(_) => Err(NoMemory),
    }
}

/// Adds words one after another.
pub(crate) fn add_words<C: Cells>(
    cells: &mut C,
    plan: &mut Vec<Cell>,
    base: usize,
    words: &[u64],
) -> Result<(), NoMemory>
    requires within { base + length words.now ≤ row_length (C.capacity_of (C.kept cells.old)) }
    requires known { IsRead (C.whole (C.kept cells.old)) }
    ensures kept { C.kept cells.new ≡ C.kept cells.old }
    ensures ok { OnOk result ((row after : List ℕ) → C.whole (C.kept cells.old) row → base + length words.now ≤ length row →
        Drafts row plan.old.items after
        → SameFrom row after base (length words.now) →
        Drafts row plan.new.items (with_words after base (slice_index words.now) (length words.now))) }
{
    // The capacity is at most `MOST_ENTRIES`, so no place is large.
    let _most = cells.capacity();
    for (i, word) in words.iter().enumerate() {
        add_cell(cells, plan, base + i, *word)?;
    }
    Ok(())
}

/// Adds the words of a text.
pub(crate) fn add_text<C: Cells>(
    cells: &mut C,
    plan: &mut Vec<Cell>,
    base: usize,
    text: &[u8],
) -> Result<(), NoMemory>
    requires within { base + (length text.now + 7) / 8 ≤ row_length (C.capacity_of (C.kept cells.old)) }
    requires known { IsRead (C.whole (C.kept cells.old)) }
    ensures kept { C.kept cells.new ≡ C.kept cells.old }
    ensures packed { IsPacked text.now }
    ensures ok { OnOk result ((row after : List ℕ) → C.whole (C.kept cells.old) row → base + (length text.now + 7) / 8 ≤ length row →
        Drafts row plan.old.items after
        → SameFrom row after base ((length text.now + 7) / 8) → Drafts row plan.new.items (with_text after base text.now)) }
{
    // The capacity is at most `MOST_ENTRIES`, so no place is large.
    let _most = cells.capacity();
    for k in 0..text.len().div_ceil(8) {
        add_cell(cells, plan, base + k, packed_word(text, k))?;
    }
    Ok(())
}

// The number of the cell of a plan that sets a place, if one does.
fn cell_of(plan: &[Cell], place: usize) -> Option<usize>
    ensures some { IfSome result (λ i. (i < length plan.now) ×
        ((slice_index_or plan.now i record { place = 0; word = 0 }).place ≡ place)) }
    ensures none { IfNone result (All (λ cell. cell.place ≢ place) plan.now) }
{
    for (i, cell) in plan.iter().enumerate() {
        if cell.place == place {
            return Some(i);
        }
    }
    None
}

/// Returns the word at a place once a plan is set.
pub(crate) fn planned_word<C: Cells>(cells: &mut C, plan: &[Cell], place: usize) -> u64
    requires within { place < row_length (C.capacity_of (C.kept cells.old)) }
    requires known { IsRead (C.whole (C.kept cells.old)) }
    ensures kept { C.kept cells.new ≡ C.kept cells.old }
    ensures word { (row after : List ℕ) → C.whole (C.kept cells.old) row → Drafts row plan.now after → result ≡ slice_index after place }
{
    if let Some(i) = cell_of(plan, place) {
        return plan[i].word;
    }
    let Some(word) = cells.word(place) else {
        unreachable!();
    };
    word
}

// Makes a plan leave the word at a place as it is in the row.
fn drop_cell(plan: &mut Vec<Cell>, place: usize)
    ensures { (row after : List ℕ) → Drafts row plan.old.items after →
        Drafts row plan.new.items (slice_set after place (slice_index row place)) }
{
    if let Some(i) = cell_of(plan, place) {
        plan.remove(i);
    }
}

/// Makes a plan set this word at a place, whatever it set there before.
pub(crate) fn set_word<C: Cells>(
    cells: &mut C,
    plan: &mut Vec<Cell>,
    place: usize,
    word: u64,
) -> Result<(), NoMemory>
    requires within { place < row_length (C.capacity_of (C.kept cells.old)) }
    requires known { IsRead (C.whole (C.kept cells.old)) }
    ensures kept { C.kept cells.new ≡ C.kept cells.old }
    ensures ok { OnOk result ((row after : List ℕ) → C.whole (C.kept cells.old) row → place < length row → Drafts row plan.old.items after
        → Drafts row plan.new.items (slice_set after place word)) }
{
    drop_cell(plan, place);
    add_cell(cells, plan, place, word)
}
