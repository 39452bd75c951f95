//! The steps of the keeper.
ghost use Rattle.std.specs.Prelude.{◌≡◌, ℕ, ◌+◌, List, [], ◌∷◌, ◌++◌, Some, None, slice_index, slice_set};
ghost use mathlib.Core.Option.{some};
ghost use lib.ListN.{get_elem?};
ghost use Rattle.directory_tree.specs.declared.change.Change.{Change};
ghost use Rattle.row_rule.specs.declared.cell.Cell.{Cell};
ghost use Rattle.row_rule.specs.declared.view.KeeperView.{KeeperView};
ghost use Rattle.row_rule.specs.declared.view.View.{View};
ghost use Rattle.row_rule.specs.declared.view.View.TheVariants.{Keeps};
ghost use Rattle.row_rule.specs.Row.{KeptBy, Holds, write, count_of};
ghost use Rattle.row_rule.specs.Steps.{opening, setting, closing, IsLater};

use crate::encoding::Encoding;

/// The keeper reads a word, and finds the one that it knows.
pub fn keeper_reads_its_row<E: Encoding>()
    ensures { (capacity size : ℕ) (k : KeeperView) (id i : ℕ) (words : List ℕ) (views : List View) →
        Holds (E.encodes capacity) size words views → get_elem? views id ≡ some (Keeps k) →
        slice_index words i ≡ slice_index (count_of k ∷ k.cells) i }
{}

/// The keeper, at rest, begins a change: it makes the count odd. Once the cells of its plan are set, the row encodes the changes
/// including this one.
pub fn opening_keeps_rule<E: Encoding>()
    ensures kept { (capacity size : ℕ) (k : KeeperView) (change : Change) (plan : List Cell) (id : ℕ)
        (words : List ℕ) (views : List View) →
        Holds (E.encodes capacity) size words views → get_elem? views id ≡ some (Keeps k) → k.pending ≡ None →
        E.encodes capacity (write k.cells plan) (k.history ++ change ∷ []) →
        KeptBy (E.encodes capacity) size (opening k change plan) (slice_set words 0 (count_of k + 1))
        (slice_set views id (Keeps (opening k change plan))) }
    ensures later { (k : KeeperView) (change : Change) (plan : List Cell) → k.pending ≡ None →
        IsLater k (opening k change plan) }
{}

/// The keeper sets the next cell of its plan.
pub fn setting_keeps_rule<E: Encoding>()
    ensures kept { (capacity size : ℕ) (k : KeeperView) (change : Change) (cell : Cell) (left : List Cell) (id : ℕ)
        (words : List ℕ) (views : List View) →
        Holds (E.encodes capacity) size words views → get_elem? views id ≡ some (Keeps k) →
        k.pending ≡ Some record { change = change; left = cell ∷ left } →
        KeptBy (E.encodes capacity) size (setting k cell) (slice_set words (cell.place + 1) cell.word)
        (slice_set views id (Keeps (setting k cell))) }
    ensures later { (k : KeeperView) (change : Change) (cell : Cell) (left : List Cell) →
        k.pending ≡ Some record { change = change; left = cell ∷ left } → IsLater k (setting k cell) }
{}

/// The keeper ends the change once no cell is left: it makes the count even.
pub fn closing_keeps_rule<E: Encoding>()
    ensures kept { (capacity size : ℕ) (k : KeeperView) (change : Change) (id : ℕ) (words : List ℕ) (views : List View) →
        Holds (E.encodes capacity) size words views → get_elem? views id ≡ some (Keeps k) →
        k.pending ≡ Some record { change = change; left = [] } →
        KeptBy (E.encodes capacity) size (closing k) (slice_set words 0 (count_of k + 1))
        (slice_set views id (Keeps (closing k))) }
    ensures later { (k : KeeperView) (change : Change) →
        k.pending ≡ Some record { change = change; left = [] } → IsLater k (closing k) }
{}
