//! Laws of plans. The functions do nothing: each stands for its contract.
ghost use Rattle.std.specs.Prelude.{◌≡◌, ℕ, List, length};
ghost use Rattle.directory_tree.specs.declared.change.Change.{Change};
ghost use Rattle.path_lookup.specs.World.{World};
ghost use Rattle.tree_row.specs.Worlds.{EncodesWorld};
ghost use Rattle.row_rule.specs.declared.cell.Cell.{Cell};
ghost use Rattle.row_rule.specs.Row.{write};
ghost use Rattle.row_plan.specs.Plan.{Plans};

/// A change has one plan, apart from the order of its cells: all its plans in a row that encodes a tree make the same row of it,
/// with as many cells.
pub fn change_has_one_plan()
    ensures row { (capacity : ℕ) (row : List ℕ) (w v : World) (change : Change) (plan other : List Cell) → EncodesWorld capacity row w →
        EncodesWorld capacity row v → w.tree ≡ v.tree
        → Plans capacity row w change plan → Plans capacity row v change other → write row plan ≡ write row other }
    ensures count { (capacity : ℕ) (row : List ℕ) (w v : World) (change : Change) (plan other : List Cell) → EncodesWorld capacity row w →
        EncodesWorld capacity row v → w.tree ≡ v.tree
        → Plans capacity row w change plan → Plans capacity row v change other → length plan ≡ length other }
{}
