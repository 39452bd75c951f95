//! Lists made, each once: what a list needs is made before it.
ghost use Rattle.std.specs.Prelude.{◌≡◌, ◌<◌, ◌≤◌, ◌+◌, ℕ, List, [], ◌∷◌, false, length, reverse, take, IsSome, IfSome, IfOk, IfErr, OnOk};
ghost use Rattle.std.specs.Prelude.{OnErr, Some, None, map, slice_get, slice_set};
ghost use Rattle.std.specs.List.{list_any};
ghost use Rattle.apparmor_variables.specs.Variables.{Variable as DeclaredVariable, list_of_values, with_first_value};
ghost use Rattle.apparmor_variables.specs.Problems.{HasProblem};
ghost use Rattle.apparmor_variables.specs.Faults.{Tells};
ghost use Rattle.apparmor_variables.specs.inner.Known.{known_in, is_marked, is_named_marked};
ghost use Rattle.apparmor_variables.specs.inner.Way.{IsSound, KnowsAll, AreKnown, variable_at, needed_at, IsFree, IsStep, Waits, IsWay};
ghost use Rattle.apparmor_variables.specs.inner.Way.{IsNearer, is_on};
ghost use Rattle.apparmor_variables.specs.inner.Gives.{Refuses};

use crate::declared::Declared;
use crate::fault::ExpandFault;
use crate::one_list::{known, list_of};
use crate::refusal::Refusal;
use crate::texts::Texts;
use std::alloc::{AllocError, Global};

/// The lists that are made, each at the place of its variable.
#[derive(Drop)]
pub(crate) struct Made {
    pub(crate) lists: Vec<Option<Texts>>,
    /// For each variable, how many variables were on the way when it was last met.
    pub(crate) met: Vec<usize>,
    /// For each list that is made, whether it needs the first variable; arbitrary for the others.
    pub(crate) needs_first: Vec<bool>,
    /// The places of those that do.
    pub(crate) needing_first: Vec<usize>,
}

/// A variable on the way to a list: its place, and how many of the names that it needs have lists.
#[derive(Clone, Copy, Drop)]
pub(crate) struct Step {
    pub(crate) variable: usize,
    pub(crate) next: usize,
}

impl Made {
    /// No list is made yet, and no variable was met; the entry of one that wasn't is arbitrary.
    pub(crate) fn nothing(alloc: Global, declared: &Declared<'_>) -> Result<Made, AllocError>
        ensures { IfOk result (λ made. IsSound declared.now made) }
    {
        let mut lists = Vec::new(alloc);
        let mut met = Vec::new(alloc);
        let mut needs_first = Vec::new(alloc);
        for place in 0..declared.len() {
            lists.push(None)?;
            met.push(place)?;
            needs_first.push(false)?;
        }
        Ok(Made {
            lists,
            met,
            needs_first,
            needing_first: Vec::new(alloc),
        })
    }

    /// Whether the variable at that place is on the way.
    fn is_on(&self, way: &[Step], place: usize) -> bool
        requires { place < length self.now.met.items }
        ensures { result ≡ is_on self.now.met.items way.now place }
    {
        match way.get(self.met[place]) {
            Some(step) => step.variable == place,
            None => false,
        }
    }

    /// Pushes the variable of that name onto the way, unless it isn't declared or is already on it.
    fn enter<'t>(
        &mut self,
        declared: &Declared<'t>,
        way: &mut Vec<Step>,
        name: &'t [u8],
    ) -> Result<(), ExpandFault<'t>>
        ghost first: { List ℕ }
        requires sound { IsSound declared.now self.old }
        requires waits { Waits declared.now self.old.lists.items self.old.met.items first (reverse way.old.items) name.now }
        requires unknown { known_in declared.now self.old.lists.items name.now ≡ None }
        ensures sound { IsSound declared.now self.new }
        ensures lists { self.new.lists.items ≡ self.old.lists.items }
        ensures way { OnOk result (IsWay declared.now self.new.lists.items self.new.met.items first (reverse way.new.items)) }
        ensures longer { OnOk result (length way.new.items ≡ length way.old.items + 1) }
        ensures fault { IfErr result (λ fault. Tells (HasProblem declared.now [] first) fault) }
    {
        let Some(place) = declared.place(name) else {
            return Err(ExpandFault::Undefined { name });
        };
        if self.is_on(way, place) {
            return Err(ExpandFault::Cycle { name });
        }
        self.met[place] = way.len();
        way.push(Step {
            variable: place,
            next: 0,
        })?;
        Ok(())
    }

    /// Marks the place of a list about to be made, if it needs the first variable.
    fn mark(&mut self, declared: &Declared<'_>, place: usize) -> Result<(), AllocError>
        requires within { place < length declared.now }
        requires sound { IsSound declared.now self.old }
        ensures sound { IsSound declared.now self.new }
        ensures lists { self.new.lists.items ≡ self.old.lists.items }
        ensures met { self.new.met.items ≡ self.old.met.items }
        ensures free { OnOk result (is_marked self.new.needs_first.items place ≡ false →
            IsFree declared.now self.new.needs_first.items place) }
    {
        let needed = declared.variable(place).needed();
        if place == 0 || is_one_marked(declared, &self.needs_first, needed) {
            self.needing_first.push(place)?;
            self.needs_first[place] = true;
        }
        Ok(())
    }

    /// Makes the list of the variable at that place; all that it needs is made.
    fn finish(
        &mut self,
        alloc: Global,
        declared: &Declared<'_>,
        place: usize,
    ) -> Result<(), Refusal>
        requires within { place < length declared.now }
        requires sound { IsSound declared.now self.old }
        requires unmade { slice_get self.old.lists.items place ≡ Some None }
        requires known { AreKnown (known_in declared.now self.old.lists.items) (needed_at declared.now place) }
        ensures sound { IsSound declared.now self.new }
        ensures made { OnOk result ((list : List (List ℕ)) × (self.new.lists.items ≡ slice_set self.old.lists.items place (Some list))) }
        ensures same { OnErr result (self.new.lists.items ≡ self.old.lists.items) }
        ensures refused { IfErr result
            (λ refusal. Refuses refusal (list_of_values (known_in declared.now self.old.lists.items)
            (variable_at declared.now place).values)) }
        ensures met { self.new.met.items ≡ self.old.met.items }
    {
        let values = declared.variable(place).values();
        let list = list_of(alloc, declared, &self.lists, values)?;
        self.mark(declared, place)?;
        self.lists[place] = Some(list);
        Ok(())
    }

    /// Forgets the lists that need the first variable.
    pub(crate) fn forget_first(&mut self)
        requires { (variables : List DeclaredVariable) × IsSound variables self.old }
        ensures { (variables : List DeclaredVariable) → IsSound variables self.old → (value : List ℕ) →
            IsSound (with_first_value variables value) self.new }
    {
        while let Some(place) = self.needing_first.pop() {
            self.lists[place] = None;
            self.needs_first[place] = false;
        }
    }
}

impl Made {
    /// Makes the list of the variable of that name, unless it is already made, and those that it needs.
    pub(crate) fn make<'t>(
        &mut self,
        alloc: Global,
        declared: &Declared<'t>,
        name: &'t [u8],
    ) -> Result<(), ExpandFault<'t>>
        requires { IsSound declared.now self.old }
        ensures sound { IsSound declared.now self.new }
        ensures more { KnowsAll (known_in declared.now self.old.lists.items) (known_in declared.now self.new.lists.items) }
        ensures known { OnOk result (IsSome (known_in declared.now self.new.lists.items name.now)) }
        ensures fault { IfErr result (λ fault. Tells (HasProblem declared.now [] name.now) fault) }
    {
        if known(declared, &self.lists, name).is_some() {
            return Ok(());
        }
        let mut way = Vec::new(alloc);
        self.enter(declared, &mut way, name)?;
        while let Some(step) = way.pop() {
            self.advance(alloc, declared, &mut way, step)?;
        }
        Ok(())
    }

    /// Advances the last step, which was popped off the way: pushes it again followed by the next variable that it needs, or makes
    /// its list.
    fn advance<'t>(
        &mut self,
        alloc: Global,
        declared: &Declared<'t>,
        way: &mut Vec<Step>,
        step: Step,
    ) -> Result<(), ExpandFault<'t>>
        ghost first: { List ℕ }
        requires sound { IsSound declared.now self.old }
        requires way { IsWay declared.now self.old.lists.items self.old.met.items first (step ∷ reverse way.old.items) }
        ensures sound { IsSound declared.now self.new }
        ensures more { KnowsAll (known_in declared.now self.old.lists.items) (known_in declared.now self.new.lists.items) }
        ensures way { OnOk result (IsWay declared.now self.new.lists.items self.new.met.items first (reverse way.new.items)) }
        ensures nearer { OnOk result (IsNearer self.old.lists.items way.old.items self.new.lists.items way.new.items) }
        ensures fault { IfErr result (λ fault. Tells (HasProblem declared.now [] first) fault) }
    {
        let names = declared.variable(step.variable).needed();
        match first_missing(declared, &self.lists, names, step.next) {
            Some((next, name)) => {
                way.push(Step { next, ..step })?;
                self.enter(declared, way, name)
            }
            None => {
                self.finish(alloc, declared, step.variable)?;
                Ok(())
            }
        }
    }
}

/// Returns the first of the names, from that place on, whose list isn't made, and its place.
fn first_missing<'t>(
    declared: &Declared<'_>,
    lists: &[Option<Texts>],
    names: &[&'t [u8]],
    next: usize,
) -> Option<(usize, &'t [u8])>
    requires { AreKnown (known_in declared.now lists.now) (take next (map (λ name. name.now) names.now)) }
    ensures none { result ≡ None → AreKnown (known_in declared.now lists.now) (map (λ name. name.now) names.now) }
    ensures before { IfSome result (λ missing. AreKnown (known_in declared.now lists.now)
        (take missing.0 (map (λ name. name.now) names.now))) }
    ensures at { IfSome result (λ missing. slice_get (map (λ name. name.now) names.now) missing.0 ≡ Some missing.1.now) }
    ensures unknown { IfSome result (λ missing. known_in declared.now lists.now missing.1.now ≡ None) }
{
    let mut place = next;
    while place < names.len() {
        let name = names[place];
        if known(declared, lists, name).is_none() {
            return Some((place, name));
        }
        place += 1;
    }
    None
}

/// Whether one of the names is marked.
fn is_one_marked(declared: &Declared<'_>, marks: &[bool], names: &[&[u8]]) -> bool
    ensures { result ≡ list_any (is_named_marked declared.now marks.now) (map (λ name. name.now) names.now) }
{
    for name in names {
        if is_marked(declared, marks, name) {
            return true;
        }
    }
    false
}

/// Whether the variable of that name is marked.
fn is_marked(declared: &Declared<'_>, marks: &[bool], name: &[u8]) -> bool
    ensures { result ≡ is_named_marked declared.now marks.now name.now }
{
    match declared.place(name) {
        Some(place) => matches!(marks.get(place), Some(true)),
        None => false,
    }
}
