//! Laws that show the rule sane.
ghost use Rattle.std.specs.Prelude.{◌≡◌, ◌↔◌, ℕ, ◌/◌, ◌%◌, List, [], ◌∷◌, None, length, replicate, slice_index};
ghost use mathlib.Core.Option.{some};
ghost use lib.ListN.{get_elem?};
ghost use Rattle.row_rule.specs.declared.view.KeeperView.{KeeperView};
ghost use Rattle.row_rule.specs.declared.view.WalkerView.{WalkerView};
ghost use Rattle.row_rule.specs.declared.view.View.{View};
ghost use Rattle.row_rule.specs.declared.view.View.TheVariants.{Keeps, Walks};
ghost use Rattle.row_rule.specs.Row.{KeptBy, Holds, FitsWalker, count_of};
ghost use Rattle.row_rule.specs.Steps.{newcomer, at_rest};

use crate::encoding::Encoding;

/// A row with count 0 whose cells encode that nothing was changed keeps the rule, with any number of new walkers.
pub fn first_row_keeps_rule<E: Encoding>()
    ensures { (capacity size : ℕ) (cells : List ℕ) (walkers : ℕ) → length cells ≡ size → E.encodes capacity cells [] →
        KeptBy (E.encodes capacity) size (at_rest [] cells) (0 ∷ cells)
        (Keeps (at_rest [] cells) ∷ replicate walkers (Walks newcomer)) }
{}

/// Only seat 0 keeps, and its view fixes the words.
pub fn keeper_fixes_row<E: Encoding>()
    ensures { (capacity size : ℕ) (k : KeeperView) (id : ℕ) (words : List ℕ) (views : List View) →
        Holds (E.encodes capacity) size words views → get_elem? views id ≡ some (Keeps k) →
        (id ≡ 0) × KeptBy (E.encodes capacity) size k words views × (words ≡ count_of k ∷ k.cells) }
{}

/// What a walker knows fits what the keeper knows.
pub fn walkers_fit_keeper<E: Encoding>()
    ensures { (capacity size : ℕ) (k : KeeperView) (w : WalkerView) (id : ℕ) (words : List ℕ) (views : List View) →
        KeptBy (E.encodes capacity) size k words views → get_elem? views id ≡ some (Walks w) → FitsWalker k w }
{}

/// The count is even exactly when no change is being made, and then the row encodes the changes that were made. Half of it is
/// their number.
pub fn parity_tells_changes<E: Encoding>()
    ensures even { (capacity size : ℕ) (k : KeeperView) (words : List ℕ) (views : List View) →
        KeptBy (E.encodes capacity) size k words views → (slice_index words 0 % 2 ≡ 0) ↔ (k.pending ≡ None) }
    ensures encodes { (capacity size : ℕ) (k : KeeperView) (words : List ℕ) (views : List View) →
        KeptBy (E.encodes capacity) size k words views → slice_index words 0 % 2 ≡ 0 → E.encodes capacity k.cells k.history }
    ensures half { (capacity size : ℕ) (k : KeeperView) (words : List ℕ) (views : List View) →
        KeptBy (E.encodes capacity) size k words views → length k.history ≡ slice_index words 0 / 2 }
{}

/// Walkers that read one version last have seen the same changes.
pub fn version_names_changes<E: Encoding>()
    ensures { (capacity size : ℕ) (k : KeeperView) (v w : WalkerView) (one other : ℕ) (words : List ℕ) (views : List View) →
        KeptBy (E.encodes capacity) size k words views →
        get_elem? views one ≡ some (Walks v) → get_elem? views other ≡ some (Walks w) →
        v.last / 2 ≡ w.last / 2 → v.seen ≡ w.seen }
{}
