//! The walk over the states of three automata, breadth first.
ghost use Rattle.std.specs.Prelude.{◌≡◌, ℕ, ◌<◌, ◌≤◌, ◌+◌, ◌++◌, ◌∷◌, [], IfOk, IfErr, OnOk, Some, length, slice_get};
ghost use Rattle.automaton_rows.specs.Automata.{IsWhole};
ghost use Rattle.automaton_search.specs.declared.states.States.{States as SomeStates};
ghost use Rattle.automaton_search.specs.Order.{place_of};
ghost use Rattle.automaton_search.specs.Visits.{AreDistinct, AreStatesOf, IsSearchFault, most_visits, next_states, start_states};
ghost use Rattle.automaton_search.specs.inner.Walks.{AreKept, IsStretch, IsVisited, IsVisitFault, IsWalkAt, states_of};

use crate::fault::SearchFault;
use crate::laws::equal_states_are_one;
use crate::states::States;
use crate::steps::{Stretch, row_from, step_from};
use automaton_rows::{Dfa, rest_after};
use indexmap::IndexSet;
use std::alloc::{AllocError, Global};

/// The most visits.
pub const MOST_VISITS: usize = 4_194_304;

/// From which visit some states were reached, and by which byte.
#[derive(Clone, Copy, Debug)]
pub(crate) struct Trail {
    pub(crate) parent: u32,
    pub(crate) byte: u8,
}

/// The states in the order in which they were reached, and how.
#[derive(Drop)]
pub(crate) struct Walk {
    pub(crate) states: IndexSet<States>,
    pub(crate) trails: Vec<Trail>,
}

impl Walk {
    // The walk that has reached nothing, with room for some visits.
    fn with_capacity(alloc: Global, visits: usize) -> Result<Walk, AllocError>
        ensures states { IfOk result (λ walk. length (states_of walk) ≡ 0) }
        ensures trails { IfOk result (λ walk. length walk.trails.items ≡ 0) }
    {
        Ok(Walk {
            states: IndexSet::with_capacity(alloc, visits)?,
            trails: Vec::with_capacity(alloc, visits)?,
        })
    }

    /// The states of the visit with this index, if there is one.
    pub(crate) fn get(&self, index: usize) -> Option<States>
        ensures { result ≡ slice_get (states_of self.now) index }
    {
        match self.states.get_index(index) {
            Some(states) => Some(*states),
            None => None,
        }
    }

    // Visits states, if they are new.
    fn reach(&mut self, states: States, trail: Trail) -> Result<(), SearchFault>
        requires { length (states_of self.old) ≤ most_visits }
        ensures visited { OnOk result (IsVisited (states_of self.old) self.old.trails.items (states_of self.new)
            self.new.trails.items states trail) }
        ensures distinct { OnOk result (AreDistinct (states_of self.new)) }
        ensures few { OnOk result (length (states_of self.new) ≤ most_visits) }
        ensures err { IfErr result (IsVisitFault (states_of self.old) states) }
    {
        equal_states_are_one();
        let count = self.states.len();
        if let Some(_index) = self.states.get_index_of(&states) {
            return Ok(());
        }
        if count == MOST_VISITS {
            return Err(SearchFault::TooManyStates);
        }
        keep(&mut self.trails, trail)?;
        match self.states.insert_full(states) {
            Ok(_) => Ok(()),
            Err(_) => Err(SearchFault::NoMemory),
        }
    }
}

// Appends to a list.
fn keep<T: Drop>(list: &mut Vec<T>, value: T) -> Result<(), AllocError>
    ensures { OnOk result (list.new.items ≡ list.old.items ++ value ∷ []) }
{
    list.push(value)?;
    Ok(())
}

// The walk that has reached the states after a slash, with room for as many visits as are expected.
fn begin(
    alloc: Global,
    expected: usize,
    first: &Dfa,
    second: &Dfa,
    third: &Dfa,
) -> Result<Walk, SearchFault>
    ensures walk { IfOk result (λ walk. IsWalkAt (next_states first.now second.now third.now)
        (start_states first.now second.now third.now) (states_of walk) walk.trails.items 0 0) }
    ensures few { IfOk result (λ walk. length (states_of walk) ≤ most_visits) }
    ensures distinct { IfOk result (λ walk. AreDistinct (states_of walk)) }
    ensures some { IfOk result (λ walk. 0 < length (states_of walk)) }
    ensures err { IfErr result (IsSearchFault first.now second.now third.now) }
{
    let start = States {
        first: first.target(first.start(), b'/'),
        second: second.target(second.start(), b'/'),
        third: third.target(third.start(), b'/'),
    };
    let mut walk = Walk::with_capacity(alloc, expected)?;
    let trail = Trail {
        parent: 0,
        byte: b'/',
    };
    walk.reach(start, trail)?;
    Ok(walk)
}

/// All that names lead the three automata to.
pub(crate) fn walk_all(
    alloc: Global,
    first: &Dfa,
    second: &Dfa,
    third: &Dfa,
) -> Result<Walk, SearchFault>
    ensures walk { IfOk result (λ walk. IsWalkAt (next_states first.now second.now third.now)
        (start_states first.now second.now third.now) (states_of walk) walk.trails.items (length (states_of walk)) 0) }
    ensures there { IfOk result (λ walk. (i : ℕ) (s : SomeStates) → slice_get (states_of walk) i ≡ Some s →
        AreStatesOf first.now second.now third.now s) }
    ensures distinct { IfOk result (λ walk. AreDistinct (states_of walk)) }
    ensures some { IfOk result (λ walk. 0 < length (states_of walk)) }
    ensures few { IfOk result (λ walk. length (states_of walk) ≤ most_visits) }
    ensures err { IfErr result (IsSearchFault first.now second.now third.now) }
{
    // Most profiles that are compared have about as many states together as separately: room for them is made at once.
    let expected = first.states() as usize + second.states() as usize + third.states() as usize;
    let mut walk = begin(alloc, expected, first, second, third)?;
    for index in 0..MOST_VISITS {
        let Some(states) = walk.get(index) else {
            return Ok(walk);
        };
        reach_all(first, second, third, &mut walk, index as u32, states)?;
    }
    Ok(walk)
}

// Visits what a visit leads to by the bytes of a stretch.
fn reach_stretch(
    first: &Dfa,
    second: &Dfa,
    third: &Dfa,
    walk: &mut Walk,
    index: u32,
    states: States,
    stretch: Stretch,
) -> Result<(), SearchFault>
    requires first { states.first < length first.now.rows }
    requires second { states.second < length second.now.rows }
    requires third { states.third < length third.now.rows }
    requires few { length (states_of walk.old) ≤ most_visits }
    requires some { 0 < stretch.first }
    requires stretch { IsStretch stretch.first stretch.last }
    requires walk { IsWalkAt (next_states first.now second.now third.now) (start_states first.now second.now third.now)
        (states_of walk.old) walk.old.trails.items index (place_of stretch.first) }
    requires here { slice_get (states_of walk.old) index ≡ Some states }
    ensures walk { OnOk result (IsWalkAt (next_states first.now second.now third.now)
        (start_states first.now second.now third.now) (states_of walk.new) walk.new.trails.items index (place_of stretch.last + 1)) }
    ensures kept { OnOk result (AreKept (states_of walk.old) (states_of walk.new)) }
    ensures distinct { OnOk result (AreDistinct (states_of walk.new)) }
    ensures few { OnOk result (length (states_of walk.new) ≤ most_visits) }
    ensures err { IfErr result (IsSearchFault first.now second.now third.now) }
{
    let mut one = row_from(first.row(states.first), stretch.first);
    let mut two = row_from(second.row(states.second), stretch.first);
    let mut three = row_from(third.row(states.third), stretch.first);
    let mut from = stretch.first;
    loop {
        let step = step_from(one, two, three, from);
        let trail = Trail {
            parent: index,
            byte: from,
        };
        walk.reach(step.target, trail)?;
        if step.last >= stretch.last {
            return Ok(());
        }
        one = rest_after(one, from, step.last);
        two = rest_after(two, from, step.last);
        three = rest_after(three, from, step.last);
        from = step.last + 1;
    }
}

// Visits what a visit leads to, by its bytes in the order of names. Byte 0 is in no name.
fn reach_all(
    first: &Dfa,
    second: &Dfa,
    third: &Dfa,
    walk: &mut Walk,
    index: u32,
    states: States,
) -> Result<(), SearchFault>
    requires first { states.first < length first.now.rows }
    requires second { states.second < length second.now.rows }
    requires third { states.third < length third.now.rows }
    requires few { length (states_of walk.old) ≤ most_visits }
    requires walk { IsWalkAt (next_states first.now second.now third.now) (start_states first.now second.now third.now)
        (states_of walk.old) walk.old.trails.items index 0 }
    requires here { slice_get (states_of walk.old) index ≡ Some states }
    ensures walk { OnOk result (IsWalkAt (next_states first.now second.now third.now)
        (start_states first.now second.now third.now) (states_of walk.new) walk.new.trails.items (index + 1) 0) }
    ensures kept { OnOk result (AreKept (states_of walk.old) (states_of walk.new)) }
    ensures distinct { OnOk result (AreDistinct (states_of walk.new)) }
    ensures few { OnOk result (length (states_of walk.new) ≤ most_visits) }
    ensures err { IfErr result (IsSearchFault first.now second.now third.now) }
{
    let from_a = Stretch {
        first: b'a',
        last: 255,
    };
    let below_a = Stretch {
        first: 1,
        last: b'a' - 1,
    };
    reach_stretch(first, second, third, walk, index, states, from_a)?;
    reach_stretch(first, second, third, walk, index, states, below_a)?;
    Ok(())
}
