//! All that names lead three automata to.
ghost use Rattle.std.specs.Prelude.{◌≡◌, ◌<◌, ◌≤◌, IfErr, IfOk, Some, length, slice_get};
ghost use Rattle.automaton_search.specs.Visits.{AreAllVisits, IsSearchFault, most_visits};
ghost use Rattle.automaton_search.specs.inner.Trails.{visits_of, GoBack};

use crate::fault::SearchFault;
use crate::laws::equal_states_are_one;
use crate::states::States;
use crate::visit_name::name_of;
use crate::walk::{Walk, walk_all};
use automaton_rows::Dfa;
use std::alloc::{AllocError, Global};
use std::marker::Model;

/// The most different states that names may lead to.
pub const MOST_VISITS: usize = crate::walk::MOST_VISITS;

/// All states of three automata that names lead to, each with the least name that leads there, in the order of these names.
#[derive(Drop)]
pub struct Visits {
    walk: Walk,
}

impl Model for Visits {
    ghost use Rattle.std.specs.Prelude.{◌≡◌, ◌≤◌, length};
    ghost use Rattle.automaton_search.specs.Visits.{VisitsValue, most_visits};
    ghost use Rattle.automaton_search.specs.inner.Trails.{visits_of, GoBack};

    ghost Value = { VisitsValue };

    ghost view = { λ v. visits_of v.walk };

    ghost invariant = { λ v. (length v.walk.states.keys ≡ length v.walk.trails.items) × GoBack v.walk.trails.items
        × (length v.walk.states.keys ≤ most_visits) };
}

impl Visits {
    /// Runs three automata at once on all names. Refused exactly if these lead to more than 4,194,304 different states, memory
    /// aside.
    pub fn of(alloc: Global, first: &Dfa, second: &Dfa, third: &Dfa) -> Result<Visits, SearchFault>
        ensures ok { IfOk result (AreAllVisits first.now second.now third.now) }
        ensures few { IfOk result (λ _. ¬ (IsSearchFault first.now second.now third.now SearchFault.TooManyStates)) }
        ensures err { IfErr result (IsSearchFault first.now second.now third.now) }
    {
        equal_states_are_one();
        let walk = walk_all(alloc, first, second, third)?;
        Ok(Visits { walk })
    }

    /// How many there are: 4,194,304 at most.
    pub fn len(&self) -> usize
        ensures len { result ≡ length self.now.states }
        ensures few { result ≤ most_visits }
    {
        self.walk.states.len()
    }

    /// The states of the visit with this index, if there is one.
    pub fn states(&self, index: usize) -> Option<States>
        ensures { result ≡ slice_get self.now.states index }
    {
        self.walk.get(index)
    }

    /// The name of the visit with this index.
    pub fn name(&self, alloc: Global, index: usize) -> Result<Vec<u8>, AllocError>
        requires { index < length self.now.states }
        ensures { IfOk result (λ name. slice_get self.now.names index ≡ Some name.items) }
    {
        name_of(alloc, &self.walk.trails, index)
    }
}
