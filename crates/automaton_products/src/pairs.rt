//! Pairs of states, numbered in the order in which they are met.
ghost use Rattle.std.specs.Prelude.{◌≡◌, ◌↔◌, ◌<◌, ◌≤◌, IfOk, IfErr, IsTrue, OnOk, Some, length, slice_get};
ghost use Rattle.automaton_rows.specs.Automata.{most_sets};
ghost use Rattle.automaton_products.specs.Numbers.{IsNumbered, IsNumberFault};
ghost use Rattle.automaton_products.specs.Products.{dead_pair, AreFewPairs, IsReached, IsProductFault, pairs_of, Keeps};

use crate::laws::equal_pairs_are_one;
use automaton_rows::{CompileFault, Dfa, MOST_SETS};
use indexmap::IndexSet;
use std::alloc::{AllocError, Global};

/// A state of one automaton and a state of another.
#[derive(Clone, Copy, Debug, PartialEq, Eq, Hash)]
pub struct Pair {
    pub one: u32,
    pub other: u32,
}

/// The pairs so far, each with its number.
#[derive(Drop)]
pub(crate) struct Pairs {
    pairs: IndexSet<Pair>,
}

impl Pairs {
    /// None so far, with room for some.
    pub(crate) fn with_capacity(alloc: Global, pairs: usize) -> Result<Pairs, AllocError>
        ensures { IfOk result (λ none. length (pairs_of none) ≡ 0) }
    {
        Ok(Pairs {
            pairs: IndexSet::with_capacity(alloc, pairs)?,
        })
    }

    /// The number of a pair: the next one, if it is new.
    pub(crate) fn number(&mut self, pair: Pair) -> Result<u32, CompileFault>
        requires { length (pairs_of self.old) ≤ most_sets }
        ensures ok { IfOk result (IsNumbered (pairs_of self.old) (pairs_of self.new) pair) }
        ensures err { IfErr result (IsNumberFault (pairs_of self.old) pair) }
    {
        equal_pairs_are_one();
        let count = self.pairs.len();
        if let Some(number) = self.pairs.get_index_of(&pair) {
            return Ok(number as u32);
        }
        if count == MOST_SETS {
            return Err(CompileFault::TooManyStates);
        }
        match self.pairs.insert_full(pair) {
            Ok((number, _)) => Ok(number as u32),
            Err(_) => Err(CompileFault::NoMemory),
        }
    }

    /// The pair with a number, if there is one.
    pub(crate) fn get(&self, number: usize) -> Option<Pair>
        ensures { result ≡ slice_get (pairs_of self.now) number }
    {
        match self.pairs.get_index(number) {
            Some(pair) => Some(*pair),
            None => None,
        }
    }
}

/// The number of a pair that is met. That of the two dead states is 0, and isn't looked up.
#[inline]
pub(crate) fn number_of(
    one: &Dfa,
    other: &Dfa,
    pairs: &mut Pairs,
    pair: Pair,
) -> Result<u16, CompileFault>
    requires pairs { AreFewPairs one.now other.now (pairs_of pairs.old) }
    requires met { IsReached one.now other.now pair }
    ensures pairs { OnOk result (AreFewPairs one.now other.now (pairs_of pairs.new)) }
    ensures kept { OnOk result (Keeps (pairs_of pairs.old) (pairs_of pairs.new)) }
    ensures number { IfOk result (λ n. slice_get (pairs_of pairs.new) n ≡ Some pair) }
    ensures err { IfErr result (IsProductFault one.now other.now) }
{
    if is_dead(pair) {
        return Ok(0);
    }
    match pairs.number(pair) {
        Ok(number) => Ok(number as u16),
        Err(fault) => Err(fault),
    }
}

// Whether nothing is live in either.
#[inline]
fn is_dead(pair: Pair) -> bool
    ensures { IsTrue result ↔ (pair ≡ dead_pair) }
{
    pair.one == 0 && pair.other == 0
}
