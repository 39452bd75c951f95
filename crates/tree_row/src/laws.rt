//! Laws of rows: functions that do nothing, and exist for their contracts.
ghost use Rattle.std.specs.Prelude.{◌≡◌, ◌≢◌, ◌≤◌, ◌<◌, ◌+◌, ℕ, List, Bool, true, false, Some, None, length};
ghost use Rattle.directory_tree.specs.Tree.{Tree, WellFormed, root_alone, find};
ghost use Rattle.directory_tree.specs.Apply.{has_room};
ghost use Rattle.path_lookup.specs.World.{World, IsTorn};
ghost use Rattle.tree_row.specs.Slots.{slot_at, IsFree};
ghost use Rattle.tree_row.specs.Rows.{Encodes};
ghost use Rattle.tree_row.specs.OpeningRow.{opening_row};
ghost use Rattle.tree_row.specs.Questions.{TellsEntryOf, TellsFree};
ghost use Rattle.tree_row.specs.Search.{TellsFound};
ghost use Rattle.tree_row.specs.Worlds.{EncodesWorld, Reads, SeesBy};

use crate::cells::Cells;
use crate::look::RowLook;

/// A slot is free iff the tree has room for one more entry, and no tree has more entries than the row has slots for.
pub fn slots_are_counted()
    ensures free { (capacity s : ℕ) (row : List ℕ) (t : Tree) → WellFormed t → Encodes capacity row t →
        IsFree (capacity + 1) (slot_at row) s → has_room capacity t ≡ true }
    ensures full { (capacity : ℕ) (row : List ℕ) (t : Tree) → WellFormed t → Encodes capacity row t →
        ((s : ℕ) → ¬ (IsFree (capacity + 1) (slot_at row) s)) → has_room capacity t ≡ false }
    ensures most { (capacity : ℕ) (row : List ℕ) (t : Tree) → WellFormed t → Encodes capacity row t → length t.entries ≤ capacity }
{}

/// The initial row encodes the root alone.
pub fn opening_row_encodes_root()
    ensures { (capacity : ℕ) → Encodes capacity (opening_row capacity) root_alone }
{}

/// A row encodes the entries of at most one tree: two trees that it encodes have the same entries at each place.
pub fn one_row_one_tree()
    ensures { (capacity : ℕ) (row : List ℕ) (t u : Tree) → Encodes capacity row t → Encodes capacity row u → (d : ℕ) (c : List ℕ) →
        find t.entries d c ≡ find u.entries d c }
{}

/// In a row that may be the one that is read, a question about a slot has one answer, and so has a search if it encodes a tree.
pub fn questions_have_one_answer<C: Cells>()
    ensures word { (cells : C) (row : List ℕ) (word : List ℕ → ℕ) (one other : ℕ) → C.may cells row →
        Reads (C.may cells) word one → Reads (C.may cells) word other → one ≡ other }
    ensures entry { (cells : C) (row : List ℕ) (capacity directory s : ℕ) → C.may cells row →
        TellsEntryOf capacity (C.may cells) directory s true → TellsEntryOf capacity (C.may cells) directory s false → ⊥ }
    ensures child { (cells : C) (row : List ℕ) (w : World) (capacity directory one other : ℕ) (component : List ℕ) →
        C.may cells row → EncodesWorld capacity row w →
        TellsFound capacity (C.may cells) directory component (Some one) →
        TellsFound capacity (C.may cells) directory component (Some other) → one ≡ other }
    ensures no_child { (cells : C) (row : List ℕ) (w : World) (capacity directory s : ℕ) (component : List ℕ) → C.may cells row →
        EncodesWorld capacity row w →
        TellsFound capacity (C.may cells) directory component (Some s) → TellsFound capacity (C.may cells) directory component None → ⊥ }
    ensures free { (cells : C) (row : List ℕ) (capacity one other : ℕ) → C.may cells row →
        TellsFree capacity (C.may cells) (Some one) → TellsFree capacity (C.may cells) (Some other) → one ≡ other }
    ensures full { (cells : C) (row : List ℕ) (capacity s : ℕ) → C.may cells row →
        TellsFree capacity (C.may cells) (Some s) → TellsFree capacity (C.may cells) None → ⊥ }
{}

/// Answers that no row gives: an entry in a free slot; of a search, a free slot, or an entry of another component or in another
/// directory; the root's slot or a used one as a free one, a free slot though another precedes it, and none though one is free.
pub fn wrong_answers_are_refused<C: Cells>()
    ensures entry_in_a_free_slot { (cells : C) (row : List ℕ) (capacity directory s : ℕ) → C.may cells row →
        (slot_at row s).kind ≡ 0 → TellsEntryOf capacity (C.may cells) directory s true → ⊥ }
    ensures free_slot_is_found { (cells : C) (row : List ℕ) (w : World) (capacity directory s : ℕ) (component : List ℕ) →
        C.may cells row → EncodesWorld capacity row w →
        (slot_at row s).kind ≡ 0 → TellsFound capacity (C.may cells) directory component (Some s) → ⊥ }
    ensures another_component { (cells : C) (row : List ℕ) (w : World) (capacity directory s : ℕ) (component : List ℕ) →
        C.may cells row → EncodesWorld capacity row w →
        (slot_at row s).component ≢ component → TellsFound capacity (C.may cells) directory component (Some s) → ⊥ }
    ensures another_directory { (cells : C) (row : List ℕ) (w : World) (capacity directory s : ℕ) (component : List ℕ) →
        C.may cells row → EncodesWorld capacity row w →
        (slot_at row s).parent ≢ directory → TellsFound capacity (C.may cells) directory component (Some s) → ⊥ }
    ensures root { (cells : C) (row : List ℕ) (capacity : ℕ) → C.may cells row → TellsFree capacity (C.may cells) (Some 0) → ⊥ }
    ensures second_free_slot { (cells : C) (row : List ℕ) (capacity r s : ℕ) → C.may cells row →
        IsFree (capacity + 1) (slot_at row) r → r < s → TellsFree capacity (C.may cells) (Some s) → ⊥ }
    ensures slot_in_use { (cells : C) (row : List ℕ) (capacity s : ℕ) → C.may cells row →
        (slot_at row s).kind ≢ 0 → TellsFree capacity (C.may cells) (Some s) → ⊥ }
    ensures none_though_one_is_free { (cells : C) (row : List ℕ) (capacity s : ℕ) → C.may cells row →
        IsFree (capacity + 1) (slot_at row) s → TellsFree capacity (C.may cells) None → ⊥ }
{}

/// If all words of the cells are known, `Torn` is returned only if their row encodes no sound tree.
pub fn torn_rows_encode_no_tree<C: Cells>(look: &RowLook<C>)
    ensures { IsTorn (C.unknown look.now.cells) (SeesBy (C.capacity_of (C.kept look.now.cells)) (C.may look.now.cells)) →
        (row : List ℕ) (t : Tree) → C.whole (C.kept look.now.cells) row → WellFormed t →
        Encodes (C.capacity_of (C.kept look.now.cells)) row t → ⊥ }
{
    let _ = look;
}
