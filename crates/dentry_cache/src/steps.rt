//! The kinds of step, each of them one load or one store of one word by one seat, and the three loads of a meeting.
ghost use Rattle.std.specs.Prelude.{◌≡◌, ℕ, ◌+◌, ◌^◌, ◌<◌, List, [], ◌∷◌, ◌++◌, length, slice_index, Some, None};
ghost use mathlib.Core.List.{IsPrefix};
ghost use Rattle.directory_tree.specs.declared.change.Change.{Change};
ghost use Rattle.tree_row.specs.Rows.{row_length};
ghost use Rattle.row_rule.specs.declared.cell.Cell.{Cell};
ghost use Rattle.row_rule.specs.declared.view.Pending.{Pending};
ghost use Rattle.row_rule.specs.Row.{write, count_of};
ghost use Rattle.row_rule.specs.Steps.{newcomer, reading, opening, setting, closing, lent_by, meeting};
ghost use Rattle.row_plan.specs.Changes.{EncodesChanges};
ghost use Rattle.dentry_cache.specs.Seats.{walker_of, keeper_in, walking, keeping, IsWalking, IsKeeping};
ghost use Rattle.dentry_cache.specs.Told.{HasBegun, HasEnded};

use crate::rule::{
    Begins, Closes, Ends, Enters, Learns, Lends, Looks, Opens, Planned, Reads, Roomed, RowSeat,
    RowTable, Sets, TakesIn,
};
use directory_tree::Change;
use row_rule::Cell;

/// A walker enters.
pub(crate) fn enter(table: &RowTable) -> RowSeat
    requires words { 0 < table.now.shared.table_id.words }
    ensures own { result.table_id ≡ table.now.shared.table_id }
    ensures told { result.me ≡ walking newcomer }
{
    table.shared.load_new_seat::<Enters>(0).1
}

/// A walker reads the count that its walk begins with.
pub(crate) fn begin_walk(table: &RowTable, seat: &mut RowSeat) -> u64
    requires own { seat.old.table_id ≡ table.now.shared.table_id }
    requires words { 0 < table.now.shared.table_id.words }
    requires role { IsWalking seat.old.me }
    ensures own { seat.new.table_id ≡ seat.old.table_id }
    ensures told { HasBegun seat.old.me result seat.new.me }
{
    table.shared.load::<Begins>(seat, 0)
}

/// A walker reads a cell.
pub(crate) fn read_cell(table: &RowTable, seat: &mut RowSeat, place: usize) -> u64
    requires own { seat.old.table_id ≡ table.now.shared.table_id }
    requires words { table.now.shared.table_id.words ≡ row_length table.now.shared.key + 1 }
    requires place { (place < row_length table.now.shared.key) × (place < 2 ^ 32) }
    requires role { IsWalking seat.old.me }
    ensures own { seat.new.table_id ≡ seat.old.table_id }
    ensures told { seat.new.me ≡ walking (reading (walker_of seat.old.me.0) record { place = place; word = result }) }
{
    table.shared.load::<Reads>(seat, place + 1)
}

/// A walker reads the count that its walk ends with.
pub(crate) fn end_walk<J: Roomed>(table: &RowTable, seat: &mut RowSeat) -> u64
    requires own { seat.old.table_id ≡ table.now.shared.table_id }
    requires words { 0 < table.now.shared.table_id.words }
    requires role { IsWalking seat.old.me }
    requires picked { J.capacity ≡ table.now.shared.key }
    ensures own { seat.new.table_id ≡ seat.old.table_id }
    ensures told { HasEnded table.now.shared.key seat.old.me result seat.new.me }
{
    table.shared.load::<Ends<J>>(seat, 0)
}

/// The keeper reads a word.
pub(crate) fn look_at(table: &RowTable, seat: &mut RowSeat, word: usize) -> u64
    requires own { seat.old.table_id ≡ table.now.shared.table_id }
    requires words { word < table.now.shared.table_id.words }
    requires role { IsKeeping seat.old.me }
    ensures own { (seat.new.table_id ≡ seat.old.table_id) × (seat.new.id ≡ seat.old.id) }
    ensures same { seat.new.me ≡ seat.old.me }
    ensures word { result ≡ slice_index (count_of (keeper_in seat.old) ∷ (keeper_in seat.old).cells) word }
{
    table.shared.load::<Looks>(seat, word)
}

/// The keeper opens a change: the count becomes odd.
pub(crate) fn open<J: Planned>(
    table: &RowTable,
    seat: &mut RowSeat,
    count: u64,
    change: &Change<'_>,
    plan: &[Cell],
)
    requires own { seat.old.table_id ≡ table.now.shared.table_id }
    requires words { 0 < table.now.shared.table_id.words }
    requires role { IsKeeping seat.old.me }
    requires shut { (keeper_in seat.old).pending ≡ None }
    requires count { (count ≡ count_of (keeper_in seat.old)) × (count + 1 < 2 ^ 64) }
    requires picked { (J.change ≡ change.now) × (J.plan ≡ plan.now) }
    requires planned { EncodesChanges table.now.shared.key (write (keeper_in seat.old).cells plan.now)
        ((keeper_in seat.old).history ++ change.now ∷ []) }
    ensures own { seat.new.table_id ≡ seat.old.table_id }
    ensures role { IsKeeping seat.new.me }
    ensures told { keeper_in seat.new ≡ opening (keeper_in seat.old) change.now plan.now }
{
    table.shared.store::<Opens<J>>(seat, 0, count + 1);
}

/// The keeper sets the next cell of its plan.
pub(crate) fn set_cell(table: &RowTable, seat: &mut RowSeat, cell: Cell)
    requires own { seat.old.table_id ≡ table.now.shared.table_id }
    requires words { (cell.place + 1 < table.now.shared.table_id.words) × (cell.place < 2 ^ 32) }
    requires role { IsKeeping seat.old.me }
    requires next { (change : Change) × (left : List Cell)
        × ((keeper_in seat.old).pending ≡ Some record { change = change; left = cell ∷ left }) }
    ensures own { seat.new.table_id ≡ seat.old.table_id }
    ensures role { IsKeeping seat.new.me }
    ensures told { keeper_in seat.new ≡ setting (keeper_in seat.old) cell }
{
    table.shared.store::<Sets>(seat, cell.place + 1, cell.word);
}

/// The keeper closes the change, once no cell of its plan is left: the count becomes even.
pub(crate) fn close(table: &RowTable, seat: &mut RowSeat, count: u64)
    requires own { seat.old.table_id ≡ table.now.shared.table_id }
    requires words { 0 < table.now.shared.table_id.words }
    requires role { IsKeeping seat.old.me }
    requires count { (count ≡ count_of (keeper_in seat.old)) × (count + 1 < 2 ^ 64) }
    requires all_set { (change : Change) × ((keeper_in seat.old).pending ≡ Some record { change = change; left = [] }) }
    ensures own { seat.new.table_id ≡ seat.old.table_id }
    ensures role { IsKeeping seat.new.me }
    ensures told { keeper_in seat.new ≡ closing (keeper_in seat.old) }
{
    table.shared.store::<Closes>(seat, 0, count + 1);
}

/// The first load of a meeting: the keeper lends a walker's seat that has seen all that was made.
pub(crate) fn lend(table: &RowTable, seat: &mut RowSeat) -> RowSeat
    requires own { seat.old.table_id ≡ table.now.shared.table_id }
    requires words { 0 < table.now.shared.table_id.words }
    requires role { IsKeeping seat.old.me }
    ensures own { seat.new.table_id ≡ seat.old.table_id }
    ensures same { seat.new.me ≡ seat.old.me }
    ensures lent { (result.table_id ≡ seat.old.table_id) × (result.me ≡ walking (lent_by (keeper_in seat.old))) }
{
    table.shared.split_seat::<Lends>(seat)
}

/// The second load: the keeper takes in the seat that the walker had.
pub(crate) fn take_in(table: &RowTable, seat: &mut RowSeat, other: RowSeat)
    requires own { seat.old.table_id ≡ table.now.shared.table_id }
    requires other { (other.table_id ≡ table.now.shared.table_id) × IsWalking other.me }
    requires words { 0 < table.now.shared.table_id.words }
    requires role { IsKeeping seat.old.me }
    ensures own { seat.new.table_id ≡ seat.old.table_id }
    ensures role { IsKeeping seat.new.me }
    ensures told { keeper_in seat.new ≡ meeting (keeper_in seat.old) (walker_of other.me.0).seen }
{
    table.shared.join_seat::<TakesIn>(seat, other);
}

/// The third load: the keeper learns that what the walker had seen is a prefix of its history.
pub(crate) fn learn(table: &RowTable, seat: &mut RowSeat)
    requires own { seat.old.table_id ≡ table.now.shared.table_id }
    requires words { 0 < table.now.shared.table_id.words }
    requires role { IsKeeping seat.old.me }
    ensures own { seat.new.table_id ≡ seat.old.table_id }
    ensures role { IsKeeping seat.new.me }
    ensures told { keeper_in seat.new ≡ meeting (keeper_in seat.old) [] }
    ensures begins { IsPrefix (keeper_in seat.old).met (keeper_in seat.old).history }
{
    table.shared.load::<Learns>(seat, 0);
}
