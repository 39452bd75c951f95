//! Declared variables.
ghost use Rattle.std.specs.Prelude.{◌≡◌, ◌++◌, ◌∷◌, [], ℕ, List, map, IfOk, OnOk};
ghost use Rattle.apparmor_pieces.specs.Pieces.{used_names};
ghost use Rattle.apparmor_variables.specs.Variables.{names_needed};

use apparmor_pieces::{Piece, split_piece};
use names::NoMemory;
use std::alloc::{AllocError, Global};
use std::marker::Model;

/// A declared variable: its name and its values, those of `=` and `+=` together.
#[derive(Drop)]
pub struct Variable<'t> {
    name: &'t [u8],
    values: Vec<&'t [u8]>,
    /// The names that the values use, in reading order.
    needed: Vec<&'t [u8]>,
}

impl<'t> Model for Variable<'t> {
    ghost use Rattle.std.specs.Prelude.{◌≡◌, map};
    ghost use Rattle.apparmor_variables.specs.Variables.{Variable as DeclaredVariable, names_needed};

    ghost Value = { DeclaredVariable };

    ghost view = { λ v. record { name = v.name.now; values = map (λ value. value.now) v.values.items } };

    ghost invariant = { λ v. map (λ name. name.now) v.needed.items ≡ names_needed (map (λ value. value.now) v.values.items) };
}

impl<'t> Variable<'t> {
    /// A variable of that name with these values.
    pub fn new(
        alloc: Global,
        name: &'t [u8],
        values: Vec<&'t [u8]>,
    ) -> Result<Variable<'t>, NoMemory>
        ensures { IfOk result (λ v. v ≡ record { name = name.now; values = map (λ value. value.now) values.entry.items }) }
    {
        match names_needed(alloc, &values) {
            Ok(needed) => Ok(Variable {
                name,
                values,
                needed,
            }),
            Err(_) => Err(NoMemory),
        }
    }

    /// A variable of that name with this value alone.
    pub(crate) fn of_one(
        alloc: Global,
        name: &'t [u8],
        value: &'t [u8],
    ) -> Result<Variable<'t>, NoMemory>
        ensures { IfOk result (λ v. v ≡ record { name = name.now; values = value.now ∷ [] }) }
    {
        let mut values = Vec::new(alloc);
        match values.push(value) {
            Ok(()) => Variable::new(alloc, name, values),
            Err(_) => Err(NoMemory),
        }
    }

    /// Its name.
    pub fn name(&self) -> &'t [u8]
        ensures { result.now ≡ self.now.name }
    {
        self.name
    }

    /// Its values.
    pub fn values(&self) -> &[&'t [u8]]
        ensures { map (λ value. value.now) result.now ≡ self.now.values }
    {
        &self.values
    }

    /// The names that its values use, in reading order.
    pub(crate) fn needed(&self) -> &[&'t [u8]]
        ensures { map (λ name. name.now) result.now ≡ names_needed self.now.values }
    {
        &self.needed
    }
}

/// The names that the values use, in reading order.
fn names_needed<'t>(alloc: Global, values: &[&'t [u8]]) -> Result<Vec<&'t [u8]>, AllocError>
    ensures { IfOk result (λ names. map (λ name. name.now) names.items ≡ names_needed (map (λ value. value.now) values.now)) }
{
    let mut names = Vec::new(alloc);
    for value in values {
        push_used(&mut names, value)?;
    }
    Ok(names)
}

/// Pushes the names that a text uses after those already there.
fn push_used<'t>(names: &mut Vec<&'t [u8]>, text: &'t [u8]) -> Result<(), AllocError>
    ensures { OnOk result (map (λ name. name.now) names.new.items ≡ map (λ name. name.now) names.old.items ++ used_names text.now) }
{
    let mut rest = text;
    while let Some((piece, more)) = split_piece(rest) {
        if let Piece::Use(name) = piece {
            names.push(name)?;
        }
        rest = more;
    }
    Ok(())
}
