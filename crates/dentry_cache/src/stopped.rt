//! What is left of a keeper that stopped in the middle of a change.
ghost use Rattle.std.specs.Prelude.{◌≡◌};
ghost use Rattle.dentry_cache.specs.inner.Knowledge.{stopped_at};

use crate::rule::{RowSeat, RowTable};
use std::marker::Model;
use std::sync::Arc;

/// The only right to change the row, after its keeper opened a change, set some of its cells, and stopped. Nobody can continue
/// or close that change.
#[derive(Drop)]
pub struct StoppedKeeper {
    table: Arc<RowTable>,
    seat: RowSeat,
    capacity: usize,
}

impl Model for StoppedKeeper {
    ghost use Rattle.dentry_cache.specs.Models.{Stopped};
    ghost use Rattle.dentry_cache.specs.inner.Knowledge.{stopped_at};

    ghost Value = { Stopped };

    ghost view = { λ s. stopped_at s.seat s.capacity };
}

impl StoppedKeeper {
    pub(crate) fn of(table: Arc<RowTable>, seat: RowSeat, capacity: usize) -> StoppedKeeper
        ensures { result ≡ stopped_at seat capacity }
    {
        StoppedKeeper {
            table,
            seat,
            capacity,
        }
    }
}
