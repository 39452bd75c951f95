//! A session.
use crate::stage::Stage;
use path_lookup::NAME_ROOM;
use std::marker::Model;

/// A session: it opens paths, one call at a time.
///
/// Its model is a pair: the capacity of the row that it reads, and the session of the machine over events, which is the name that
/// its last answer judged and the stage of its call.
#[derive(Drop)]
pub struct SteppedSession {
    pub(crate) capacity: usize,
    // The name is at the front.
    pub(crate) name: Box<[u8; NAME_ROOM]>,
    pub(crate) name_length: usize,
    // Where a walk writes the name that it finds. An answer swaps it with `name`, and so needs no memory.
    pub(crate) room: Box<[u8; NAME_ROOM]>,
    pub(crate) stage: Stage,
}

impl Model for SteppedSession {
    ghost use Rattle.names.specs.Limits.{longest_path};
    ghost use Rattle.std.specs.Prelude.{ℕ, ◌≤◌, take};
    ghost use Rattle.event_machine.specs.Machine as machine;
    ghost use Rattle.tree_row.specs.declared.cells.TheConstants.{MOST_ENTRIES};

    ghost Value = { ℕ × machine.Session };

    ghost use Rattle.open_session.specs.inner.StageData.{stage_of, IsStanding};

    ghost view = { λ s. (s.capacity, record { name = take s.name_length s.name.value; stage = stage_of s.stage }) };

    ghost invariant = { λ s. (s.capacity ≤ MOST_ENTRIES) × (s.name_length ≤ longest_path) × IsStanding s.capacity s.room.value s.stage };
}
