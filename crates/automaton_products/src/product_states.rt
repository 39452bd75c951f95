//! The product of two automata: a state for each pair of states that some bytes lead to.
ghost use Rattle.std.specs.Prelude.{◌≡◌, ◌<◌, ◌≤◌, ◌+◌, ◌++◌, ◌∷◌, [], List, IfOk, IfErr, OnOk, Some, length, slice_get};
ghost use Rattle.automaton_rows.specs.Automata.{IsWhole};
ghost use Rattle.automaton_rows.specs.Rows.{IsRowFrom, target_in};
ghost use Rattle.automaton_rows.specs.declared.range.TargetRange.{TargetRange};
ghost use Rattle.automaton_products.specs.Products.{AreFewPairs, IsReached, IsProduct, IsProductFault, Keeps, pairs_of, start_pair};
ghost use Rattle.automaton_products.specs.ProductStates.{AreStates, IsJoinedRow};

use crate::joins::joined;
use crate::pairs::{Pair, Pairs, number_of};
use automaton_rows::{CompileFault, Dfa, MOST_SETS, TargetRange, head, rest_after};
use names::Record;
use std::alloc::{AllocError, Global};

/// The rows and records of the pairs that have been processed.
#[derive(Drop)]
struct States {
    ranges: Vec<TargetRange>,
    firsts: Vec<usize>,
    records: Vec<Record>,
}

/// How many ranges a row is expected to have.
const RANGES: usize = 4;

/// The automaton that runs both automata at once. Its states are the pairs of states that some bytes lead to, numbered in the order
/// in which they are met: state by state, and for each state the bytes in ascending order. Refused if there are more than 16,384.
pub fn product(alloc: Global, one: &Dfa, other: &Dfa) -> Result<Dfa, CompileFault>
    ensures ok { IfOk result (IsProduct one.now other.now) }
    ensures err { IfErr result (IsProductFault one.now other.now) }
{
    // Most products have about as many states as both automata together, with some ranges each: room for them is made at once.
    let expected = one.states() as usize + other.states() as usize;
    let mut pairs = Pairs::with_capacity(alloc, expected)?;
    let start = number_start(one, other, &mut pairs)?;
    let mut states = States {
        ranges: Vec::with_capacity(alloc, RANGES * expected)?,
        firsts: Vec::with_capacity(alloc, expected)?,
        records: Vec::with_capacity(alloc, expected)?,
    };
    add_states(one, other, &mut pairs, &mut states)?;
    Ok(Dfa::of(states.ranges, states.firsts, states.records, start))
}

// Numbers the pair of the dead states, and then that of the starts.
fn number_start(one: &Dfa, other: &Dfa, pairs: &mut Pairs) -> Result<u32, CompileFault>
    requires none { length (pairs_of pairs.old) ≡ 0 }
    ensures pairs { OnOk result (AreFewPairs one.now other.now (pairs_of pairs.new)) }
    ensures first { IfOk result (λ start. start ≤ 1) }
    ensures start { IfOk result (λ start. slice_get (pairs_of pairs.new) start ≡ Some (start_pair one.now other.now)) }
    ensures err { IfErr result (IsProductFault one.now other.now) }
{
    pairs.number(Pair { one: 0, other: 0 })?;
    let start = Pair {
        one: one.start(),
        other: other.start(),
    };
    pairs.number(start)
}

// A row and a record for each pair. A row may lead to new pairs, whose turn comes later.
fn add_states(
    one: &Dfa,
    other: &Dfa,
    pairs: &mut Pairs,
    states: &mut States,
) -> Result<(), CompileFault>
    requires whole_one { IsWhole one.now }
    requires whole_other { IsWhole other.now }
    requires pairs { AreFewPairs one.now other.now (pairs_of pairs.old) }
    requires ranges { states.old.ranges.items ≡ [] }
    requires firsts { states.old.firsts.items ≡ [] }
    requires records { states.old.records.items ≡ [] }
    ensures kept { OnOk result (Keeps (pairs_of pairs.old) (pairs_of pairs.new)) }
    ensures states { OnOk result (AreStates one.now other.now (pairs_of pairs.new) states.new.ranges.items states.new.firsts.items
        states.new.records.items (length (pairs_of pairs.new))) }
    ensures err { IfErr result (IsProductFault one.now other.now) }
{
    for state in 0..MOST_SETS {
        let Some(pair) = pairs.get(state) else {
            break;
        };
        add_state(one, other, pairs, pair, states)?;
    }
    Ok(())
}

// Adds the row and the record of one more pair.
fn add_state(
    one: &Dfa,
    other: &Dfa,
    pairs: &mut Pairs,
    pair: Pair,
    states: &mut States,
) -> Result<(), CompileFault>
    requires whole_one { IsWhole one.now }
    requires whole_other { IsWhole other.now }
    requires states { AreStates one.now other.now (pairs_of pairs.old) states.old.ranges.items states.old.firsts.items
        states.old.records.items (length states.old.firsts.items) }
    requires pair { slice_get (pairs_of pairs.old) (length states.old.firsts.items) ≡ Some pair }
    ensures kept { OnOk result (Keeps (pairs_of pairs.old) (pairs_of pairs.new)) }
    ensures one_more { OnOk result (length states.new.firsts.items ≡ length states.old.firsts.items + 1) }
    ensures states { OnOk result (AreStates one.now other.now (pairs_of pairs.new) states.new.ranges.items states.new.firsts.items
        states.new.records.items (length states.new.firsts.items)) }
    ensures err { IfErr result (IsProductFault one.now other.now) }
{
    let record = joined(&one.record_at(pair.one), &other.record_at(pair.other));
    let first = count(&states.ranges);
    add_row(one, other, pairs, pair, &mut states.ranges)?;
    keep(&mut states.firsts, first)?;
    keep(&mut states.records, record)?;
    Ok(())
}

// Adds the row of a pair: both rows are walked at once, and each byte has the pair of its two targets. If adjacent ranges have
// different targets in the rows of both automata, they have so here too, and nothing has to be joined.
fn add_row(
    one: &Dfa,
    other: &Dfa,
    pairs: &mut Pairs,
    pair: Pair,
    ranges: &mut Vec<TargetRange>,
) -> Result<(), CompileFault>
    requires whole_one { IsWhole one.now }
    requires whole_other { IsWhole other.now }
    requires pairs { AreFewPairs one.now other.now (pairs_of pairs.old) }
    requires met { IsReached one.now other.now pair }
    ensures pairs { OnOk result (AreFewPairs one.now other.now (pairs_of pairs.new)) }
    ensures kept { OnOk result (Keeps (pairs_of pairs.old) (pairs_of pairs.new)) }
    ensures row { OnOk result ((row : List TargetRange) × (ranges.new.items ≡ ranges.old.items ++ row) × IsJoinedRow one.now other.now
        (pairs_of pairs.new) pair row) }
    ensures err { IfErr result (IsProductFault one.now other.now) }
{
    let mut first = one.row(pair.one);
    let mut second = other.row(pair.other);
    let mut from = 0;
    loop {
        let near = head(first, from);
        let far = head(second, from);
        let last = near.last.min(far.last);
        let next = Pair {
            one: u32::from(near.target),
            other: u32::from(far.target),
        };
        let target = number_of(one, other, pairs, next)?;
        keep(ranges, TargetRange { last, target })?;
        if last == 255 {
            return Ok(());
        }
        first = rest_after(first, from, last);
        second = rest_after(second, from, last);
        from = last + 1;
    }
}

// The number of ranges.
fn count(ranges: &Vec<TargetRange>) -> usize
    ensures { result ≡ length ranges.now.items }
{
    ranges.len()
}

// Appends to a list.
fn keep<T: Drop>(list: &mut Vec<T>, value: T) -> Result<(), AllocError>
    ensures { OnOk result (list.new.items ≡ list.old.items ++ value ∷ []) }
{
    list.push(value)?;
    Ok(())
}
