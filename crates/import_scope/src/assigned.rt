//! Variables and the values that they have so far.
ghost use Rattle.std.specs.Prelude.{◌≡◌, ◌++◌, ◌∷◌, [], false, IfOk, OnOk, length, map};
ghost use Rattle.apparmor_variables.specs.inner.Known.{place_of};
ghost use Rattle.import_scope.specs.Scopes.{is_declared, with_variable, with_values, with_defines};

use apparmor_variables::Variable;
use names::NoMemory;
use std::alloc::{AllocError, Global};
use std::collections::BTreeMap;
use std::marker::Model;

/// A value that a variable has before the text: several of one name are one variable.
#[derive(Clone, Copy, Debug)]
pub struct Define<'t> {
    pub name: &'t [u8],
    pub value: &'t [u8],
}

/// A variable and its values so far.
#[derive(Drop)]
struct Assigned<'t> {
    name: &'t [u8],
    values: Vec<&'t [u8]>,
}

impl<'t> Model for Assigned<'t> {
    ghost use Rattle.std.specs.Prelude.{map};
    ghost use Rattle.apparmor_variables.specs.Variables.{Variable as DeclaredVariable};

    ghost Value = { DeclaredVariable };

    ghost view = { λ a. record { name = a.name.now; values = map (λ value. value.now) a.values.items } };
}

impl<'t> Assigned<'t> {
    /// Adds values after those that are there.
    fn add(&mut self, values: &[&'t [u8]]) -> Result<(), AllocError>
        ensures name { self.new.name ≡ self.old.name }
        ensures values { OnOk result (self.new.values ≡ self.old.values ++ map (λ value. value.now) values.now) }
    {
        self.values.extend_from_slice(values)
    }

    /// The variable, as it is declared.
    fn finish(self, alloc: Global) -> Result<Variable<'t>, NoMemory>
        ensures { IfOk result (λ v. v ≡ self.entry) }
    {
        let Assigned { name, values } = self;
        Variable::new(alloc, name, values)
    }
}

/// The variables so far, each found by its name. To contracts they are their list.
#[derive(Drop)]
pub(crate) struct Assignments<'t> {
    variables: Vec<Assigned<'t>>,
    places: BTreeMap<Vec<u8>, usize>,
}

impl<'t> Model for Assignments<'t> {
    ghost use Rattle.std.specs.Prelude.{◌≡◌, ℕ, List};
    ghost use Rattle.std.specs.BTreeMap.{get_by};
    ghost use Rattle.std.specs.Cmp.Lexicographic.{slice_cmp};
    ghost use Rattle.std.specs.Ordering.{nat_cmp};
    ghost use Rattle.apparmor_variables.specs.Variables.{Variable as DeclaredVariable};
    ghost use Rattle.apparmor_variables.specs.inner.Known.{place_of};

    ghost Value = { List DeclaredVariable };

    ghost view = { λ a. a.variables.items };

    ghost invariant = { λ a. (name : List ℕ) → get_by (λ key. slice_cmp nat_cmp name key.items) a.places
        ≡ place_of a.variables.items name };
}

impl<'t> Assignments<'t> {
    /// No variables.
    fn none(alloc: Global) -> Assignments<'t>
        ensures { result ≡ [] }
    {
        Assignments {
            variables: Vec::new(alloc),
            places: BTreeMap::new(alloc),
        }
    }

    /// How many variables there are.
    pub(crate) fn len(&self) -> usize
        ensures { result ≡ length self.now }
    {
        self.variables.len()
    }

    /// Where the variable with this name is.
    fn place(&self, name: &[u8]) -> Option<usize>
        ensures { result ≡ place_of self.now name.now }
    {
        self.places.get(name).copied()
    }

    /// Whether a variable of that name is declared.
    pub(crate) fn has(&self, name: &[u8]) -> bool
        ensures { result ≡ is_declared self.now name.now }
    {
        self.place(name).is_some()
    }

    /// Adds a variable with a new name.
    pub(crate) fn declare(
        &mut self,
        alloc: Global,
        name: &'t [u8],
        values: Vec<&'t [u8]>,
    ) -> Result<(), AllocError>
        requires { is_declared self.old name.now ≡ false }
        ensures { OnOk result (self.new ≡ with_variable self.old name.now (map (λ value. value.now) values.entry.items)) }
    {
        let place = self.variables.len();
        let key = Vec::from_slice(alloc, name)?;
        self.variables.push(Assigned { name, values })?;
        match self.places.insert(key, place) {
            Ok(_) => Ok(()),
            Err(_) => {
                self.variables.pop();
                Err(AllocError)
            }
        }
    }

    /// Adds values to the variable with this name, if there is one.
    pub(crate) fn add(&mut self, name: &[u8], values: &[&'t [u8]]) -> Result<(), AllocError>
        ensures { OnOk result (self.new ≡ with_values self.old name.now (map (λ value. value.now) values.now)) }
    {
        match self.place(name) {
            Some(place) => self.variables[place].add(values),
            None => Ok(()),
        }
    }

    /// Adds a value that is given beforehand.
    fn define(&mut self, alloc: Global, define: Define<'t>) -> Result<(), AllocError>
        ensures { OnOk result (self.new ≡ with_defines self.old (define.entry ∷ [])) }
    {
        if self.has(define.name) {
            return self.add(define.name, &[define.value]);
        }
        let mut values = Vec::new(alloc);
        values.push(define.value)?;
        self.declare(alloc, define.name, values)
    }

    /// The variables that are given beforehand.
    pub(crate) fn defined(
        alloc: Global,
        defines: &[Define<'t>],
    ) -> Result<Assignments<'t>, AllocError>
        ensures { IfOk result (λ a. a ≡ with_defines [] defines.now) }
    {
        let mut assignments = Assignments::none(alloc);
        for define in defines {
            assignments.define(alloc, *define)?;
        }
        Ok(assignments)
    }

    /// The variables, as they are declared.
    pub(crate) fn finish(self, alloc: Global) -> Result<Vec<Variable<'t>>, AllocError>
        ensures { IfOk result (λ variables. variables.items ≡ self.entry) }
    {
        let Assignments { variables, .. } = self;
        let mut finished = Vec::new(alloc);
        for assigned in variables {
            match assigned.finish(alloc) {
                Ok(variable) => finished.push(variable)?,
                Err(_) => return Err(AllocError),
            }
        }
        Ok(finished)
    }
}
