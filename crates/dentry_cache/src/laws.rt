//! Laws of the table: the functions do nothing, each exists for its contract.
ghost use Rattle.std.specs.Prelude.{◌≡◌, ℕ, List, slice_set};
ghost use mathlib.Core.Option.{some};
ghost use lib.ListN.{get_elem?};
ghost use Rattle.tree_row.specs.Rows.{row_length};
ghost use Rattle.row_rule.specs.declared.view.WalkerView.{WalkerView};
ghost use Rattle.row_rule.specs.declared.view.View.{View};
ghost use Rattle.row_rule.specs.declared.view.View.TheVariants.{Walks};
ghost use Rattle.row_rule.specs.Row.{Holds};
ghost use Rattle.row_plan.specs.Changes.{EncodesChanges};

/// Only the keeper writes: a step of a walker's seat, whatever it sets and whatever the seat knows then, leaves all words as
/// they are, if the rule holds before and after it.
pub fn walkers_write_nothing()
    ensures { (capacity seat word to : ℕ) (w : WalkerView) (after : View) (words : List ℕ) (views : List View)
        → Holds (EncodesChanges capacity) (row_length capacity) words views → get_elem? views seat ≡ some (Walks w)
        → Holds (EncodesChanges capacity) (row_length capacity) (slice_set words word to) (slice_set views seat after) →
        slice_set words word to ≡ words }
{}
