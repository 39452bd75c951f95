//! The steps of a walker.
ghost use Rattle.std.specs.Prelude.{◌≡◌, ℕ, ◌+◌, ◌%◌, ◌<◌, List, [], ◌∷◌, ◌++◌, slice_index, slice_set};
ghost use mathlib.Core.Option.{some};
ghost use lib.ListN.{get_elem?};
ghost use Rattle.row_rule.specs.declared.view.KeeperView.{KeeperView};
ghost use Rattle.row_rule.specs.declared.view.WalkerView.{WalkerView};
ghost use Rattle.row_rule.specs.declared.view.View.{View};
ghost use Rattle.row_rule.specs.declared.view.View.TheVariants.{Walks};
ghost use Rattle.row_rule.specs.Row.{KeptBy, Agrees};
ghost use Rattle.row_rule.specs.Steps.{newcomer, beginning, reading, ending, Sees};

use crate::encoding::Encoding;

/// A walker that has seen nothing enters.
pub fn entering_keeps_rule<E: Encoding>()
    ensures { (capacity size : ℕ) (k : KeeperView) (words : List ℕ) (views : List View) →
        KeptBy (E.encodes capacity) size k words views → KeptBy (E.encodes capacity) size k words (views ++ Walks newcomer ∷ []) }
{}

/// A walker begins its walk: it reads the count, and has now seen every change that was made. What a walker has seen never
/// shrinks, and no count that it reads is below the one before.
pub fn beginning_keeps_rule<E: Encoding>()
    ensures kept { (capacity size : ℕ) (k : KeeperView) (w : WalkerView) (id : ℕ) (words : List ℕ) (views : List View) →
        KeptBy (E.encodes capacity) size k words views → get_elem? views id ≡ some (Walks w) →
        KeptBy (E.encodes capacity) size k words (slice_set views id (Walks (beginning w (slice_index words 0) k.history))) }
    ensures told { (capacity size : ℕ) (k : KeeperView) (w : WalkerView) (id : ℕ) (words : List ℕ) (views : List View) →
        KeptBy (E.encodes capacity) size k words views → get_elem? views id ≡ some (Walks w) →
        Sees w (slice_index words 0) k.history }
{}

/// A walker reads a cell.
pub fn reading_keeps_rule<E: Encoding>()
    ensures { (capacity size : ℕ) (k : KeeperView) (w : WalkerView) (place id : ℕ) (words : List ℕ) (views : List View) →
        KeptBy (E.encodes capacity) size k words views → get_elem? views id ≡ some (Walks w) → place < size →
        KeptBy (E.encodes capacity) size k words
        (slice_set views id (Walks (reading w record { place = place; word = slice_index words (place + 1) }))) }
{}

/// A walker ends its walk: it reads the count again. If it is even and the one that the walk began with, no change was made in
/// between, and the cells encode the changes that it has seen and still hold all that it read.
pub fn ending_keeps_rule<E: Encoding>()
    ensures kept { (capacity size : ℕ) (k : KeeperView) (w : WalkerView) (id : ℕ) (words : List ℕ) (views : List View) →
        KeptBy (E.encodes capacity) size k words views → get_elem? views id ≡ some (Walks w) →
        KeptBy (E.encodes capacity) size k words (slice_set views id (Walks (ending w (slice_index words 0) k.history))) }
    ensures told { (capacity size : ℕ) (k : KeeperView) (w : WalkerView) (id : ℕ) (words : List ℕ) (views : List View) →
        KeptBy (E.encodes capacity) size k words views → get_elem? views id ≡ some (Walks w) →
        Sees w (slice_index words 0) k.history }
    ensures whole { (capacity size : ℕ) (k : KeeperView) (w : WalkerView) (id : ℕ) (words : List ℕ) (views : List View) →
        KeptBy (E.encodes capacity) size k words views → get_elem? views id ≡ some (Walks w) →
        slice_index words 0 ≡ w.noted → w.noted % 2 ≡ 0 →
        (w.seen ≡ k.history) × E.encodes capacity k.cells k.history × Agrees w.reads k.cells }
{}
