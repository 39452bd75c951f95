//! The table of words under the rule of the row, and its kinds of step.
ghost use Rattle.std.specs.Prelude.{ℕ, List, []};
ghost use Rattle.directory_tree.specs.declared.change.Change.{Change};
ghost use Rattle.directory_tree.specs.declared.change.Change.TheVariants.{Mkdir};
ghost use Rattle.row_rule.specs.declared.cell.Cell.{Cell};
ghost use Rattle.row_rule.specs.declared.view.View.TheVariants.{Walks};
ghost use Rattle.row_rule.specs.Steps.{newcomer};
ghost use Rattle.dentry_cache.specs.Told.{KeepsRule, first_view, HasEntered, HasBegun, HasRead, HasEnded, HasLooked, HasOpened, HasSet};
ghost use Rattle.dentry_cache.specs.Told.{HasClosed, lent_view, met_view, IsTold};

use atomic_table::{Join, Play, Seat, Split, Table, TableRule};
use row_rule::View;
use std::alloc::Global;
use std::marker::{Brand, PhantomData};

/// The rule of the row. The key is the row's capacity.
pub struct RowRule;

impl TableRule<(), View, u64> for RowRule {
    ghost holds = { KeepsRule };

    ghost first = { first_view };
}

/// The words: the count, followed by the cells.
pub type RowTable = Table<(), View, u64, RowRule, Global>;

/// The right to take steps, as the keeper or as a walker.
pub type RowSeat = Seat<(), View>;

/// A walker enters.
pub struct Enters;

impl Play<(), View> for Enters {
    ghost then = { λ _ _ _ after. HasEntered after };
}

/// A walker reads the count that its walk begins with.
pub struct Begins;

impl Play<(), View> for Begins {
    ghost then = { λ _. HasBegun };
}

/// A walker reads a cell.
pub struct Reads;

impl Play<(), View> for Reads {
    ghost then = { λ st. HasRead st.word };
}

/// The capacity of a row: a step can't read the table's key, so its caller passes the capacity.
pub trait Roomed {
    ghost capacity: { ℕ };
}

impl Roomed for Brand {
    ghost capacity = { 0 };
}

/// A walker reads the count that its walk ends with.
pub struct Ends<J> {
    of: PhantomData<J>,
}

impl<J: Roomed> Play<(), View> for Ends<J> {
    ghost then = { λ _. HasEnded J.capacity };
}

/// The keeper reads a word.
pub struct Looks;

impl Play<(), View> for Looks {
    ghost then = { λ st. HasLooked st.word };
}

/// A change, and the cells of its plan: a step is passed only numbers, so its caller passes these.
pub trait Planned {
    ghost change: { Change };

    ghost plan: { List Cell };
}

impl Planned for Brand {
    ghost change = { Mkdir [] };

    ghost plan = { [] };
}

/// The keeper opens the change.
pub struct Opens<J> {
    of: PhantomData<J>,
}

impl<J: Planned> Play<(), View> for Opens<J> {
    ghost then = { λ _ before _ after. HasOpened J.change J.plan before after };
}

/// The keeper sets a cell.
pub struct Sets;

impl Play<(), View> for Sets {
    ghost then = { λ st before _ after. HasSet st.word st.first before after };
}

/// The keeper closes the change.
pub struct Closes;

impl Play<(), View> for Closes {
    ghost then = { λ _ before _ after. HasClosed before after };
}

/// The keeper lends a walker's seat.
pub struct Lends;

impl Split<View> for Lends {
    ghost left = { λ view. view };

    ghost right = { lent_view };
}

/// The keeper takes in a walker's seat.
pub struct TakesIn;

impl Join<View> for TakesIn {
    ghost both = { met_view };

    ghost spent = { Walks newcomer };
}

/// The keeper learns what the walker had seen.
pub struct Learns;

impl Play<(), View> for Learns {
    ghost then = { λ _ before _ after. IsTold before after };
}
