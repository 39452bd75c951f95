//! The cells that an act sets.
ghost use Rattle.std.specs.Prelude.{◌≡◌, ◌<◌, ◌≤◌, ◌+◌, ℕ, List, IfOk, length};
ghost use Rattle.std.specs.Option.{option_map};
ghost use Rattle.names.specs.declared.limits.TheConstants.{LONGEST_COMPONENT};
ghost use Rattle.directory_tree.specs.Apply.{longest_link_text};
ghost use Rattle.change_checks.specs.Act.{kind_of_new, Fits, FitsNode};
ghost use Rattle.change_checks.specs.declared.act.Act.TheVariants as act;
ghost use Rattle.tree_row.specs.Slots.{slot_at};
ghost use Rattle.tree_row.specs.Questions.{IsFirstFree};
ghost use Rattle.row_plan.specs.Leaves.{code_of, text_in};
ghost use Rattle.row_plan.specs.inner.Acts.{HasRoom, IsTreeRead, NamesSlots, PassedTests, PlansAct};
ghost use Rattle.row_plan.specs.inner.Entries.{slot_of, PlansEntry};

use crate::index::{add_to_index, remove_any, remove_from_index};
use crate::slot::{NewEntry, clear_slot, fill_slot, move_slot};
use change_checks::{Act, Move, NewNode, Place};
use names::NoMemory;
use row_rule::Cell;
use std::alloc::Global;
use tree_row::{
    Cells, DIRECTORY, FILE, LINK, NODE, RowEntry, free_slot, slot_word, slots_are_counted,
};

/// The cells of a new node's entry (mkdir(2), open(2), symlink(2)).
pub(crate) fn plan_make<C: Cells>(
    alloc: Global,
    cells: &mut C,
    next: u64,
    place: &Place<'_, RowEntry>,
    node: &NewNode<'_>,
) -> Result<Vec<Cell>, NoMemory>
    requires known { IsTreeRead (C.capacity_of (C.kept cells.old)) (C.whole (C.kept cells.old)) }
    requires slots { NamesSlots (C.capacity_of (C.kept cells.old)) (C.whole (C.kept cells.old)) (act.Make place.now node.now) }
    requires fits { Fits (act.Make place.now node.now) }
    requires tested { PassedTests (C.capacity_of (C.kept cells.old)) (C.whole (C.kept cells.old)) (act.Make place.now node.now) }
    ensures kept { C.kept cells.new ≡ C.kept cells.old }
    ensures ok { IfOk result (λ plan. PlansAct (C.capacity_of (C.kept cells.old)) (C.whole (C.kept cells.old)) next
        (act.Make place.now node.now) plan.items) }
{
    let entry = NewEntry {
        kind: kind_word(node),
        node: next,
        parent: place.directory.slot(),
        component: place.component,
        text: link_text(node),
    };
    plan_entry(alloc, cells, &entry)
}

// The number that the kind of the new node has in a slot.
fn kind_word(node: &NewNode<'_>) -> u64
    ensures { result ≡ code_of (kind_of_new node.now) }
{
    match node {
        NewNode::Directory => DIRECTORY,
        NewNode::File => FILE,
        NewNode::Link(_) => LINK,
    }
}

// The text of a new link; other nodes have none.
fn link_text<'a>(node: &NewNode<'a>) -> &'a [u8]
    ensures { result.now ≡ text_in (kind_of_new node.now) }
{
    match node {
        NewNode::Directory | NewNode::File => &[],
        NewNode::Link(text) => text,
    }
}

/// The cells of one more entry for a file (link(2)).
pub(crate) fn plan_link<C: Cells>(
    alloc: Global,
    cells: &mut C,
    file: RowEntry,
    place: &Place<'_, RowEntry>,
) -> Result<Vec<Cell>, NoMemory>
    requires known { IsTreeRead (C.capacity_of (C.kept cells.old)) (C.whole (C.kept cells.old)) }
    requires slots { NamesSlots (C.capacity_of (C.kept cells.old)) (C.whole (C.kept cells.old)) (act.Link file place.now) }
    requires fits { Fits (act.Link file place.now) }
    requires tested { PassedTests (C.capacity_of (C.kept cells.old)) (C.whole (C.kept cells.old)) (act.Link file place.now) }
    ensures kept { C.kept cells.new ≡ C.kept cells.old }
    ensures ok { IfOk result (λ plan. (next : ℕ) → PlansAct (C.capacity_of (C.kept cells.old)) (C.whole (C.kept cells.old)) next
        (act.Link file place.now) plan.items) }
{
    let Ok(node) = slot_word(cells, file.slot(), NODE) else {
        unreachable!();
    };
    let entry = NewEntry {
        kind: FILE,
        node,
        parent: place.directory.slot(),
        component: place.component,
        text: &[],
    };
    plan_entry(alloc, cells, &entry)
}

// The cells of a new entry: it is put into the first free slot, which is added to the index.
fn plan_entry<C: Cells>(
    alloc: Global,
    cells: &mut C,
    entry: &NewEntry<'_>,
) -> Result<Vec<Cell>, NoMemory>
    requires room { HasRoom (C.capacity_of (C.kept cells.old)) (C.whole (C.kept cells.old)) }
    requires parent { entry.now.parent < C.capacity_of (C.kept cells.old) + 1 }
    requires fits { length entry.now.component.now ≤ LONGEST_COMPONENT }
    requires text_fits { length entry.now.text.now ≤ longest_link_text }
    ensures kept { C.kept cells.new ≡ C.kept cells.old }
    ensures ok { IfOk result (λ plan. PlansEntry (C.capacity_of (C.kept cells.old)) (C.whole (C.kept cells.old)) (slot_of entry.now)
        plan.items) }
{
    let slot = vacant_slot(cells);
    let mut plan = fill_slot(alloc, cells, slot, entry)?;
    add_to_index(cells, &mut plan, slot, entry.parent, entry.component)?;
    Ok(plan)
}

// The first free slot of a tree that has room for one more entry.
fn vacant_slot<C: Cells>(cells: &mut C) -> usize
    requires room { HasRoom (C.capacity_of (C.kept cells.old)) (C.whole (C.kept cells.old)) }
    ensures kept { C.kept cells.new ≡ C.kept cells.old }
    ensures free { (row : List ℕ) → C.whole (C.kept cells.old) row → IsFirstFree (C.capacity_of (C.kept cells.old) + 1)
        (slot_at row) result }
{
    slots_are_counted();
    let Ok(found) = free_slot(cells) else {
        unreachable!();
    };
    match found {
        Some(slot) => slot,
        None => unreachable!(),
    }
}

/// The cells of an entry that is removed (unlink(2), rmdir(2)).
pub(crate) fn plan_remove<C: Cells>(
    alloc: Global,
    cells: &mut C,
    place: &Place<'_, RowEntry>,
    entry: RowEntry,
) -> Result<Vec<Cell>, NoMemory>
    requires known { IsTreeRead (C.capacity_of (C.kept cells.old)) (C.whole (C.kept cells.old)) }
    requires slots { NamesSlots (C.capacity_of (C.kept cells.old)) (C.whole (C.kept cells.old)) (act.Remove place.now entry) }
    requires tested { PassedTests (C.capacity_of (C.kept cells.old)) (C.whole (C.kept cells.old)) (act.Remove place.now entry) }
    ensures kept { C.kept cells.new ≡ C.kept cells.old }
    ensures ok { IfOk result (λ plan. (next : ℕ) → PlansAct (C.capacity_of (C.kept cells.old)) (C.whole (C.kept cells.old)) next
        (act.Remove place.now entry) plan.items) }
{
    let slot = entry.slot();
    let mut plan = clear_slot(alloc, cells, slot)?;
    remove_from_index(
        cells,
        &mut plan,
        slot,
        place.directory.slot(),
        place.component,
    )?;
    Ok(plan)
}

/// The cells of an entry that moves (rename(2)). The slot of the entry at the new place is freed first.
pub(crate) fn plan_move<C: Cells>(
    alloc: Global,
    cells: &mut C,
    moved: &Move<'_, RowEntry>,
) -> Result<Vec<Cell>, NoMemory>
    requires known { IsTreeRead (C.capacity_of (C.kept cells.old)) (C.whole (C.kept cells.old)) }
    requires slots { NamesSlots (C.capacity_of (C.kept cells.old)) (C.whole (C.kept cells.old)) (act.Move moved.now) }
    requires fits { Fits (act.Move moved.now) }
    requires tested { PassedTests (C.capacity_of (C.kept cells.old)) (C.whole (C.kept cells.old)) (act.Move moved.now) }
    ensures kept { C.kept cells.new ≡ C.kept cells.old }
    ensures ok { IfOk result (λ plan. (next : ℕ) → PlansAct (C.capacity_of (C.kept cells.old)) (C.whole (C.kept cells.old)) next
        (act.Move moved.now) plan.items) }
{
    let slot = moved.entry.slot();
    let replaced = slot_of(moved.replaced);
    let (from, to) = (moved.from, moved.to);
    let parent = to.directory.slot();
    let mut plan = move_slot(alloc, cells, slot, parent, to.component, replaced)?;
    remove_any(cells, &mut plan, replaced, parent, to.component)?;
    remove_from_index(
        cells,
        &mut plan,
        slot,
        from.directory.slot(),
        from.component,
    )?;
    add_to_index(cells, &mut plan, slot, parent, to.component)?;
    Ok(plan)
}

// The slot of an entry, if there is one.
fn slot_of(entry: Option<RowEntry>) -> Option<usize>
    ensures { result ≡ option_map (λ e. e.slot) entry }
{
    entry.map(|entry| entry.slot())
}
