//! A change of the row by its keeper, step by step.
ghost use Rattle.std.specs.Prelude.{◌≡◌, ◌+◌, ◌^◌, ◌<◌, ◌≤◌, [], ◌∷◌, ◌++◌, length, drop, Some, None, take};
ghost use Rattle.std.specs.List.{All};
ghost use Rattle.tree_row.specs.Rows.{row_length};
ghost use Rattle.row_rule.specs.Row.{write, count_of};
ghost use Rattle.row_plan.specs.Changes.{EncodesChanges};
ghost use Rattle.dentry_cache.specs.Seats.{keeper_in, IsKeeping};

use crate::rule::{RowSeat, RowTable};
use crate::steps;
use directory_tree::Change;
use row_rule::Cell;
use std::marker::Brand;

/// Opens a change, sets the cells of its plan, and closes it.
pub(crate) fn perform(
    table: &RowTable,
    seat: &mut RowSeat,
    count: u64,
    change: &Change<'_>,
    plan: &[Cell],
)
    requires own { seat.old.table_id ≡ table.now.shared.table_id }
    requires words { (table.now.shared.table_id.words ≡ row_length table.now.shared.key + 1) × (table.now.shared.key < 2 ^ 16) }
    requires role { IsKeeping seat.old.me }
    requires shut { (keeper_in seat.old).pending ≡ None }
    requires count { (count ≡ count_of (keeper_in seat.old)) × (count + 2 < 2 ^ 64) }
    requires planned { EncodesChanges table.now.shared.key (write (keeper_in seat.old).cells plan.now)
        ((keeper_in seat.old).history ++ change.now ∷ []) }
    requires within { All (λ cell. cell.place < row_length table.now.shared.key) plan.now }
    ensures own { seat.new.table_id ≡ seat.old.table_id }
    ensures role { IsKeeping seat.new.me }
    ensures shut { (keeper_in seat.new).pending ≡ None }
    ensures history { (keeper_in seat.new).history ≡ (keeper_in seat.old).history ++ change.now ∷ [] }
    ensures cells { (keeper_in seat.new).cells ≡ write (keeper_in seat.old).cells plan.now }
{
    begin(table, seat, count, change, plan, plan.len());
    steps::close(table, seat, count + 1);
}

/// Opens a change, and sets the first `set` cells of its plan.
pub(crate) fn begin(
    table: &RowTable,
    seat: &mut RowSeat,
    count: u64,
    change: &Change<'_>,
    plan: &[Cell],
    set: usize,
)
    requires own { seat.old.table_id ≡ table.now.shared.table_id }
    requires words { (table.now.shared.table_id.words ≡ row_length table.now.shared.key + 1) × (table.now.shared.key < 2 ^ 16) }
    requires role { IsKeeping seat.old.me }
    requires shut { (keeper_in seat.old).pending ≡ None }
    requires count { (count ≡ count_of (keeper_in seat.old)) × (count + 2 < 2 ^ 64) }
    requires planned { EncodesChanges table.now.shared.key (write (keeper_in seat.old).cells plan.now)
        ((keeper_in seat.old).history ++ change.now ∷ []) }
    requires within { All (λ cell. cell.place < row_length table.now.shared.key) plan.now }
    requires fewer { set ≤ length plan.now }
    ensures own { seat.new.table_id ≡ seat.old.table_id }
    ensures role { IsKeeping seat.new.me }
    ensures history { (keeper_in seat.new).history ≡ (keeper_in seat.old).history }
    ensures pending { (keeper_in seat.new).pending ≡ Some record { change = change.now; left = drop set plan.now } }
    ensures cells { (keeper_in seat.new).cells ≡ write (keeper_in seat.old).cells (take set plan.now) }
{
    steps::open::<Brand>(table, seat, count, change, plan);
    for i in 0..set {
        steps::set_cell(table, seat, plan[i]);
    }
}
