//! The machine's parts.
ghost use Rattle.std.specs.Prelude.{◌≡◌, ◌≤◌, IfOk};
ghost use Rattle.event_machine.specs.Machine.{first};
ghost use Rattle.interleaving_core.specs.Parts.{machine_of};

use crate::Sessions;
use event_machine::runs_keep_rule;
use names::NoMemory;
use open_session::Policy;
use path_lookup::Scratch;
use row_keeper::SteppedKeeper;
use std::alloc::Global;
use std::marker::Model;
use tree_row::MOST_ENTRIES;

/// Sessions that open paths, the keeper of the tree, and the published policy.
///
/// Its view is its parts, which make up a machine over events (`machine_of`). The rule of the row holds in it.
#[derive(Drop)]
pub struct Core {
    pub(crate) alloc: Global,
    pub(crate) keeper: SteppedKeeper,
    pub(crate) policy: Policy,
    pub(crate) sessions: Sessions,
    pub(crate) scratch: Scratch,
}

impl Model for Core {
    ghost use Rattle.interleaving_core.specs.Parts.{Parts};

    ghost Value = { Parts };

    ghost use Rattle.interleaving_core.specs.inner.Consistency.{parts_in, IsStanding};

    ghost view = { λ c. parts_in c.keeper c.policy c.sessions };

    ghost invariant = { λ c. IsStanding c.keeper c.policy c.sessions };
}

impl Core {
    /// A machine with only the root, no profile, and no call. The row has room for `capacity` entries.
    pub fn new(alloc: Global, capacity: usize) -> Result<Core, NoMemory>
        requires { capacity ≤ MOST_ENTRIES }
        ensures { IfOk result (λ core. machine_of core ≡ first capacity) }
    {
        runs_keep_rule();
        let keeper = SteppedKeeper::new(alloc, capacity)?;
        let policy = Policy::new(alloc);
        let sessions = Sessions::new(alloc, capacity);
        Ok(Core {
            alloc,
            keeper,
            policy,
            sessions,
            scratch: Scratch::new(),
        })
    }

    pub(crate) fn alloc(&self) -> Global {
        self.alloc
    }
}
