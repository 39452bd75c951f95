//! The tally of a row while a change is made.
ghost use Rattle.std.specs.Prelude.{◌<◌, ℕ, List, length};
ghost use Rattle.std.specs.List.{All};
ghost use Rattle.row_rule.specs.Row.{write};
ghost use Rattle.row_tally.specs.Tally.{IsTallyOf};

use row_rule::Cell;
use row_tally::RowTally;

/// Passes the cells of a plan to the tally, in the order in which they are set.
pub(crate) fn follow(tally: &mut RowTally, plan: &[Cell])
    ensures { (capacity : ℕ) (row : List ℕ) → All (λ cell. cell.place < length row) plan.now →
        IsTallyOf capacity row tally.old → IsTallyOf capacity (write row plan.now) tally.new }
{
    for cell in plan {
        tally.set(cell.place, cell.word);
    }
}
