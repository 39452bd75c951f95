//! A meeting: the keeper lends a walker's seat, takes in the one that the walker had, and learns what that one had seen.
ghost use Rattle.std.specs.Prelude.{◌≡◌, ℕ, List, [], ◌∷◌, ◌++◌, slice_set};
ghost use mathlib.Core.Option.{some};
ghost use mathlib.Core.List.{IsPrefix};
ghost use lib.ListN.{get_elem?};
ghost use Rattle.row_rule.specs.declared.view.KeeperView.{KeeperView};
ghost use Rattle.row_rule.specs.declared.view.WalkerView.{WalkerView};
ghost use Rattle.row_rule.specs.declared.view.View.{View};
ghost use Rattle.row_rule.specs.declared.view.View.TheVariants.{Keeps, Walks};
ghost use Rattle.row_rule.specs.Row.{KeptBy, Holds};
ghost use Rattle.row_rule.specs.Steps.{newcomer, lent_by, meeting};

use crate::encoding::Encoding;

/// The keeper lends a new walker's seat, which has seen all that the keeper has done.
pub fn lending_keeps_rule<E: Encoding>()
    ensures { (capacity size : ℕ) (k : KeeperView) (id : ℕ) (words : List ℕ) (views : List View) →
        Holds (E.encodes capacity) size words views → get_elem? views id ≡ some (Keeps k) →
        KeptBy (E.encodes capacity) size k words (views ++ Walks (lent_by k) ∷ []) }
{}

/// The keeper takes in a walker's seat, and notes what it had seen.
pub fn taking_in_keeps_rule<E: Encoding>()
    ensures { (capacity size : ℕ) (k : KeeperView) (w : WalkerView) (id other : ℕ) (words : List ℕ) (views : List View) →
        Holds (E.encodes capacity) size words views → get_elem? views id ≡ some (Keeps k) →
        get_elem? views other ≡ some (Walks w) →
        KeptBy (E.encodes capacity) size (meeting k w.seen) words
        (slice_set (slice_set views id (Keeps (meeting k w.seen))) other (Walks newcomer)) }
{}

/// The keeper learns that what it noted is a prefix of its history, and forgets it.
pub fn telling_keeps_rule<E: Encoding>()
    ensures kept { (capacity size : ℕ) (k : KeeperView) (id : ℕ) (words : List ℕ) (views : List View) →
        Holds (E.encodes capacity) size words views → get_elem? views id ≡ some (Keeps k) →
        KeptBy (E.encodes capacity) size (meeting k []) words (slice_set views id (Keeps (meeting k []))) }
    ensures told { (capacity size : ℕ) (k : KeeperView) (id : ℕ) (words : List ℕ) (views : List View) →
        Holds (E.encodes capacity) size words views → get_elem? views id ≡ some (Keeps k) → IsPrefix k.met k.history }
{}
