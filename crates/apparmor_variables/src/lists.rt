//! Path texts with the variables put in place.
ghost use Rattle.std.specs.Prelude.{◌≡◌, ℕ, List, [], length, IfOk, IfErr, OnOk, OnErr};
ghost use Rattle.apparmor_variables.specs.Counts.{AtMost, OthersCount};
ghost use Rattle.apparmor_pieces.specs.Pieces.{used_names};
ghost use Rattle.apparmor_variables.specs.Variables.{with_first_value};
ghost use Rattle.apparmor_variables.specs.Faults.{Tells};
ghost use Rattle.apparmor_variables.specs.PathTexts.{IsSubstituted, PathProblem};
ghost use Rattle.apparmor_variables.specs.inner.Known.{known_in};
ghost use Rattle.apparmor_variables.specs.inner.Way.{IsSound, AreKnown, KnowsAll};

use crate::counts::count_others;
use crate::declared::Declared;
use crate::fault::ExpandFault;
use crate::made_lists::Made;
use crate::placement::put_in_place;
use crate::sink::{Measure, Sink};
use crate::variables::Variable;
use apparmor_pieces::{Piece, split_piece};
use names::NoMemory;
use std::alloc::{AllocError, Global};
use std::marker::Model;

/// Declared variables, with the lists of texts made so far; each is made once. Contracts see the value as the list of the
/// variables.
#[derive(Drop)]
pub struct Lists<'t> {
    declared: Declared<'t>,
    made: Made,
}

impl<'t> Model for Lists<'t> {
    ghost use Rattle.std.specs.Prelude.{List};
    ghost use Rattle.apparmor_variables.specs.Variables.{Variable as DeclaredVariable};
    ghost use Rattle.apparmor_variables.specs.inner.Way.{IsSound};

    ghost Value = { List DeclaredVariable };

    ghost view = { λ l. l.declared };

    ghost invariant = { λ l. IsSound l.declared l.made };
}

impl<'t> Lists<'t> {
    /// Starts with no list made. The variables' names are all different; of two with the same name the first would count.
    pub fn new(alloc: Global, variables: Vec<Variable<'t>>) -> Result<Lists<'t>, NoMemory>
        ensures { IfOk result (λ lists. lists ≡ variables.entry.items) }
    {
        match Lists::declare(alloc, variables) {
            Ok(lists) => Ok(lists),
            Err(_) => Err(NoMemory),
        }
    }

    fn declare(alloc: Global, variables: Vec<Variable<'t>>) -> Result<Lists<'t>, AllocError>
        ensures { IfOk result (λ lists. lists ≡ variables.entry.items) }
    {
        let declared = Declared::new(alloc, variables)?;
        let made = Made::nothing(alloc, &declared)?;
        Ok(Lists { declared, made })
    }

    /// Gives the first variable this value alone; its name stays. The lists that don't need it are kept.
    ///
    /// The number of steps is that of the lists needing it that were made since it was last set, plus the bytes of the value.
    pub fn set_first(&mut self, alloc: Global, value: &'t [u8]) -> Result<(), NoMemory>
        ensures first { OnOk result (self.new ≡ with_first_value self.old value.now) }
        ensures same { OnErr result (self.new ≡ self.old) }
    {
        self.declared.set_first(alloc, value)?;
        self.made.forget_first();
        Ok(())
    }

    /// Returns what the variables but the first count, each with its list, if that is at most `most`. The lists are made for that.
    pub fn count_others(&mut self, alloc: Global, most: usize) -> Result<Option<usize>, NoMemory>
        ensures count { IfOk result (AtMost (OthersCount self.old) most) }
        ensures variables { self.new ≡ self.old }
    {
        count_others(alloc, &self.declared, &mut self.made, most)
    }

    /// Returns the text of a path with its variables put in place, or the first of all reasons why there is none: that of the
    /// leftmost variable without a list, and that the text is too long last.
    pub fn substitute(&mut self, alloc: Global, path: &'t [u8]) -> Result<Vec<u8>, ExpandFault<'t>>
        ensures text { IfOk result (λ text. IsSubstituted self.old path.now text.items) }
        ensures fault { IfErr result (λ fault. Tells (PathProblem self.old path.now) fault) }
        ensures variables { self.new ≡ self.old }
    {
        let mut text = Vec::new(alloc);
        self.add_to(alloc, &mut text, path)?;
        Ok(text)
    }

    /// Returns the length of the text of a path with its variables put in place, or the reason that [`Lists::substitute`] returns
    /// why there is none. The text isn't made.
    pub fn measure(&mut self, alloc: Global, path: &'t [u8]) -> Result<usize, ExpandFault<'t>>
        ensures length { IfOk result (λ n. (text : List ℕ) × IsSubstituted self.old path.now text × (n ≡ length text)) }
        ensures fault { IfErr result (λ fault. Tells (PathProblem self.old path.now) fault) }
        ensures variables { self.new ≡ self.old }
    {
        let mut measure = Measure::empty();
        self.add_to(alloc, &mut measure, path)?;
        Ok(measure.length())
    }

    /// Adds the text of a path with its variables put in place to what is still empty.
    fn add_to<S: Sink>(
        &mut self,
        alloc: Global,
        sink: &mut S,
        path: &'t [u8],
    ) -> Result<(), ExpandFault<'t>>
        requires { S.Holds sink.old [] }
        ensures text { OnOk result ((text : List ℕ) × IsSubstituted self.old path.now text × S.Holds sink.new text) }
        ensures fault { IfErr result (λ fault. Tells (PathProblem self.old path.now) fault) }
        ensures variables { self.new ≡ self.old }
    {
        make_used(alloc, &self.declared, &mut self.made, path)?;
        put_in_place(sink, &self.declared, &self.made.lists, path)?;
        Ok(())
    }
}

/// Makes the list of each variable that the path uses.
fn make_used<'t>(
    alloc: Global,
    declared: &Declared<'t>,
    made: &mut Made,
    path: &'t [u8],
) -> Result<(), ExpandFault<'t>>
    requires { IsSound declared.now made.old }
    ensures sound { IsSound declared.now made.new }
    ensures known { OnOk result (AreKnown (known_in declared.now made.new.lists.items) (used_names path.now)) }
    ensures fault { IfErr result (λ fault. Tells (PathProblem declared.now path.now) fault) }
{
    let mut rest = path;
    while let Some((piece, more)) = split_piece(rest) {
        if let Piece::Use(name) = piece {
            made.make(alloc, declared, name)?;
        }
        rest = more;
    }
    Ok(())
}
