//! The sessions, by their numbers.
ghost use Rattle.std.specs.Prelude.{◌≡◌, ◌≤◌, ℕ};
ghost use Rattle.event_machine.specs.Machine.{new_session};
ghost use Rattle.interleaving_core.specs.Table.{session_in};

use open_session::SteppedSession;
use std::alloc::Global;
use std::collections::BTreeMap;
use std::marker::Model;
use tree_row::MOST_ENTRIES;

/// Any number of sessions, which read rows of one capacity. A session is made when it first begins a call.
///
/// Modelled as the pair of that capacity and the sessions that were made, by their numbers, each with the capacity.
#[derive(Drop)]
pub struct Sessions {
    pub(crate) alloc: Global,
    pub(crate) capacity: usize,
    pub(crate) by_number: BTreeMap<u32, SteppedSession>,
}

impl Model for Sessions {
    ghost use Rattle.std.specs.Prelude.{ℕ, ◌≤◌, List};
    ghost use Rattle.event_machine.specs.Machine as machine;
    ghost use Rattle.tree_row.specs.declared.cells.TheConstants.{MOST_ENTRIES};

    ghost Value = { ℕ × List (ℕ × (ℕ × machine.Session)) };

    ghost use Rattle.interleaving_core.specs.inner.SharedParts.{ShareCapacity};

    ghost view = { λ s. (s.capacity, s.by_number.entries) };

    ghost invariant = { λ s. (s.capacity ≤ MOST_ENTRIES) × ShareCapacity s.capacity s.by_number.entries };
}

impl Sessions {
    /// A table whose sessions began no call yet, and read rows with room for `capacity` entries.
    pub fn new(alloc: Global, capacity: usize) -> Sessions
        requires { capacity ≤ MOST_ENTRIES }
        ensures capacity { result.0 ≡ capacity }
        ensures all_new { (number : ℕ) → session_in result number ≡ new_session }
    {
        Sessions {
            alloc,
            capacity,
            by_number: BTreeMap::new(alloc),
        }
    }

    /// The name that the session's last answer judged, empty if it judged none.
    pub fn name(&self, number: u32) -> &[u8]
        ensures { result.now ≡ (session_in self.now number).name }
    {
        match self.by_number.get(&number) {
            Some(session) => session.name(),
            None => &[],
        }
    }
}
