//! Declared variables, found by their names.
ghost use Rattle.std.specs.Prelude.{◌≡◌, ◌<◌, ℕ, List, length, IfOk, OnOk, OnErr, slice_get, Some};
ghost use Rattle.std.specs.BTreeMap.{get_by};
ghost use Rattle.std.specs.Cmp.Lexicographic.{slice_cmp};
ghost use Rattle.std.specs.Ordering.{nat_cmp};
ghost use Rattle.apparmor_variables.specs.Variables.{with_first_value};
ghost use Rattle.apparmor_variables.specs.inner.Known.{place_of};

use crate::variables::Variable;
use names::NoMemory;
use std::alloc::{AllocError, Global};
use std::collections::BTreeMap;
use std::marker::Model;

/// The declared variables, in order.
#[derive(Drop)]
pub(crate) struct Declared<'t> {
    variables: Vec<Variable<'t>>,
    places: BTreeMap<Vec<u8>, usize>,
}

impl<'t> Model for Declared<'t> {
    ghost use Rattle.std.specs.Prelude.{◌≡◌, ℕ, List};
    ghost use Rattle.std.specs.BTreeMap.{get_by};
    ghost use Rattle.std.specs.Cmp.Lexicographic.{slice_cmp};
    ghost use Rattle.std.specs.Ordering.{nat_cmp};
    ghost use Rattle.apparmor_variables.specs.Variables.{Variable as DeclaredVariable};
    ghost use Rattle.apparmor_variables.specs.inner.Known.{place_of};

    ghost Value = { List DeclaredVariable };

    ghost view = { λ d. d.variables.items };

    ghost invariant = { λ d. (name : List ℕ) → get_by (λ key. slice_cmp nat_cmp name key.items) d.places
        ≡ place_of d.variables.items name };
}

impl<'t> Declared<'t> {
    pub(crate) fn new(
        alloc: Global,
        variables: Vec<Variable<'t>>,
    ) -> Result<Declared<'t>, AllocError>
        ensures { IfOk result (λ declared. declared ≡ variables.entry.items) }
    {
        let places = places_of(alloc, &variables)?;
        Ok(Declared { variables, places })
    }

    /// Gives the first variable this value alone.
    pub(crate) fn set_first(&mut self, alloc: Global, value: &'t [u8]) -> Result<(), NoMemory>
        ensures first { OnOk result (self.new ≡ with_first_value self.old value.now) }
        ensures same { OnErr result (self.new ≡ self.old) }
    {
        if self.variables.is_empty() {
            return Ok(());
        }
        self.variables[0] = Variable::of_one(alloc, self.variables[0].name(), value)?;
        Ok(())
    }

    /// Returns the number of variables.
    pub(crate) fn len(&self) -> usize
        ensures { result ≡ length self.now }
    {
        self.variables.len()
    }

    /// Returns the place of the variable of that name.
    pub(crate) fn place(&self, name: &[u8]) -> Option<usize>
        ensures { result ≡ place_of self.now name.now }
    {
        self.places.get(name).copied()
    }

    /// The variable at a place.
    pub(crate) fn variable(&self, place: usize) -> &Variable<'t>
        requires { place < length self.now }
        ensures { slice_get self.now place ≡ Some result.now }
    {
        &self.variables[place]
    }
}

/// Returns the place of the variable of each name. Of two with the same name the first counts.
fn places_of(
    alloc: Global,
    variables: &[Variable<'_>],
) -> Result<BTreeMap<Vec<u8>, usize>, AllocError>
    ensures { IfOk result (λ places. (name : List ℕ) → get_by (λ key. slice_cmp nat_cmp name key.items) places
        ≡ place_of variables.now name) }
{
    let mut places = BTreeMap::new(alloc);
    for (place, variable) in variables.iter().enumerate() {
        let name = variable.name();
        if places.get(name).is_none() {
            places.insert(Vec::from_slice(alloc, name)?, place)?;
        }
    }
    Ok(places)
}
