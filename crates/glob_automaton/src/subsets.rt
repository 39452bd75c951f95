//! The subset construction: a state for each set of places that is live after some bytes.
ghost use Rattle.std.specs.Prelude.{◌≡◌, ◌↔◌, ◌-◌, ◌<◌, ◌≤◌, ◌++◌, true, ◌∷◌, [], IfOk, IfErr, IsTrue, OnOk, Contains, length, map};
ghost use Rattle.std.specs.Prelude.{slice_index_or};
ghost use Rattle.glob_automaton.specs.inner.Alike.{AreAlike, AreEdges, AreNamed};
ghost use Rattle.automaton_rows.specs.Automata.{most_sets};
ghost use Rattle.glob_automaton.specs.inner.ChartStates.{ArePlaces, IsStartOf, IsStepOf, IsRecordOf, IsBuilt, IsBuildFault};
ghost use Rattle.glob_automaton.specs.inner.Drawings.{IsPartOfChart};
ghost use Rattle.glob_automaton.specs.inner.GatheredSets.{IsGathering, IsAscending};
ghost use Rattle.glob_automaton.specs.inner.States.{lists_of, tables, AreFewSets, AreStates, Keeps, IsNumbered, IsNumberFault, IsTargetOf};
ghost use Rattle.glob_automaton.specs.inner.Shared.{AreShared};
ghost use Rattle.automaton_rows.specs.Rows.{AreRows, IsRowAppended};

use crate::bytes::ByteClasses;
use crate::chart::Chart;
use crate::marks::Marks;
use crate::sets::Gathering;
use automaton_rows::{CompileFault, Dfa, MOST_SETS, TargetRange};
use indexmap::IndexSet;
use names::{Record, records_are_their_hits};
use std::alloc::{AllocError, Global};

/// The sets so far, each with its number.
#[derive(Drop)]
struct Sets {
    alloc: Global,
    sets: IndexSet<Vec<usize>>,
}

/// The rows and records of the sets that have been processed, and the number of the set at the start.
#[derive(Drop)]
struct States {
    // The ranges of all rows, one row after another.
    ranges: Vec<TargetRange>,
    // For each state the index of its row's first range.
    firsts: Vec<usize>,
    records: Vec<Record>,
    start: u32,
}

/// How many ranges a row is expected to have.
const RANGES: usize = 4;

/// Builds the automaton of a chart of one rule.
pub(crate) fn build(alloc: Global, chart: &Chart) -> Result<Dfa, CompileFault>
    requires chart { IsPartOfChart chart.now }
    requires one { length chart.now.rules.items ≡ 1 }
    ensures ok { IfOk result (IsBuilt chart.now) }
    ensures err { IfErr result (IsBuildFault chart.now) }
{
    let mut gathering = Gathering::new(alloc, chart)?;
    // Most paths lead to about as many sets as they have places, with some ranges each: room for them is made at once.
    let expected = chart.places.len();
    let mut sets = Sets {
        alloc,
        sets: IndexSet::with_capacity(alloc, expected)?,
    };
    let start = number_start(chart, &mut gathering, &mut sets)?;
    let mut states = States {
        ranges: Vec::with_capacity(alloc, expected.saturating_mul(RANGES))?,
        firsts: Vec::with_capacity(alloc, expected)?,
        records: Vec::with_capacity(alloc, expected)?,
        start,
    };
    add_states(alloc, chart, &mut gathering, &mut sets, &mut states)?;
    Ok(Dfa::of(states.ranges, states.firsts, states.records, states.start))
}

// Numbers the empty set, and then what is live before the first byte.
fn number_start(
    chart: &Chart,
    gathering: &mut Gathering,
    sets: &mut Sets,
) -> Result<u32, CompileFault>
    requires chart { IsPartOfChart chart.now }
    requires gathering { IsGathering chart.now gathering.old }
    requires none { lists_of sets.old ≡ [] }
    ensures gathering { OnOk result (IsGathering chart.now gathering.new) }
    ensures start { IfOk result (λ start. AreStates chart.now (lists_of sets.new) [] [] [] start 0) }
    ensures err { IfErr result (IsBuildFault chart.now) }
{
    sets.number(&[])?;
    gather_start(chart, gathering)?;
    sets.number(gathering.places())
}

// A row and a record for each set. A row may lead to new sets, whose turn comes later.
fn add_states(
    alloc: Global,
    chart: &Chart,
    gathering: &mut Gathering,
    sets: &mut Sets,
    states: &mut States,
) -> Result<(), CompileFault>
    requires chart { IsPartOfChart chart.now }
    requires one { length chart.now.rules.items ≡ 1 }
    requires gathering { IsGathering chart.now gathering.old }
    requires none { AreStates chart.now (lists_of sets.old) states.old.ranges.items states.old.firsts.items states.old.records.items
        states.old.start 0 }
    ensures ok { OnOk result
        (IsBuilt chart.now (tables states.new.ranges.items states.new.firsts.items states.new.records.items states.new.start)) }
    ensures rows { OnOk result (AreRows states.new.ranges.items states.new.firsts.items) }
    ensures err { IfErr result (IsBuildFault chart.now) }
{
    let classes = ByteClasses::of(chart);
    let mut set = Vec::new(alloc);
    for state in 0..MOST_SETS {
        if !sets.copy(state, &mut set)? {
            break;
        }
        let first = count(&states.ranges);
        add_row(chart, &classes, &set, gathering, sets, &mut states.ranges)?;
        keep(&mut states.firsts, first)?;
        keep(&mut states.records, record_of(chart, &set))?;
    }
    Ok(())
}

impl Sets {
    // The number of a set: the next one, if it is new.
    fn number(&mut self, set: &[usize]) -> Result<u32, CompileFault>
        requires { length (lists_of self.old) ≤ most_sets }
        ensures ok { IfOk result (IsNumbered (lists_of self.old) (lists_of self.new) set.now) }
        ensures err { IfErr result (IsNumberFault (lists_of self.old) set.now) }
    {
        let count = self.sets.len();
        if let Some(number) = self.sets.get_index_of(set) {
            return Ok(number as u32);
        }
        if count == MOST_SETS {
            return Err(CompileFault::TooManyStates);
        }
        let set = Vec::from_slice(self.alloc, set)?;
        match self.sets.insert_full(set) {
            Ok((number, _)) => Ok(number as u32),
            Err(_) => Err(CompileFault::NoMemory),
        }
    }

    // Copies the set of a number, if there is one.
    fn copy(&self, number: usize, set: &mut Vec<usize>) -> Result<bool, AllocError>
        ensures there { IfOk result (λ found. IsTrue found ↔ (number < length (lists_of self.now))) }
        ensures set { IfOk result (λ found. IsTrue found → set.new.items ≡ slice_index_or (lists_of self.now) number []) }
    {
        let Some(found) = self.sets.get_index(number) else {
            return Ok(false);
        };
        set.clear();
        set.extend_from_slice(found)?;
        Ok(true)
    }
}

// The number of ranges.
fn count(ranges: &Vec<TargetRange>) -> usize
    ensures { result ≡ length ranges.now.items }
{
    ranges.len()
}

/// Appends to a list, whatever its elements are.
pub(crate) fn keep<T: Drop>(list: &mut Vec<T>, value: T) -> Result<(), AllocError>
    ensures { OnOk result (list.new.items ≡ list.old.items ++ value ∷ []) }
{
    list.push(value)?;
    Ok(())
}

// Gathers what is live before the first byte.
fn gather_start(chart: &Chart, gathering: &mut Gathering) -> Result<(), AllocError>
    requires chart { IsPartOfChart chart.now }
    requires gathering { IsGathering chart.now gathering.old }
    ensures gathering { OnOk result (IsGathering chart.now gathering.new) }
    ensures start { OnOk result (IsStartOf chart.now gathering.new.places.items) }
{
    gathering.clear(chart);
    for rule in &chart.rules {
        gathering.enter(chart, rule.start)?;
    }
    gathering.read_off(chart)?;
    Ok(())
}

// Gathers what is live after one more byte.
fn gather_step(
    chart: &Chart,
    set: &[usize],
    byte: u8,
    gathering: &mut Gathering,
) -> Result<(), AllocError>
    requires chart { IsPartOfChart chart.now }
    requires set { ArePlaces chart.now set.now }
    requires gathering { IsGathering chart.now gathering.old }
    ensures gathering { OnOk result (IsGathering chart.now gathering.new) }
    ensures step { OnOk result (IsStepOf chart.now set.now byte gathering.new.places.items) }
{
    gathering.clear(chart);
    for place in set {
        let place = chart.places[*place];
        if chart.takes(place.takes, byte) {
            gathering.enter(chart, place.behind)?;
        }
    }
    gathering.read_off(chart)?;
    Ok(())
}

// The target of a set and a byte.
fn target_of(
    chart: &Chart,
    set: &[usize],
    byte: u8,
    gathering: &mut Gathering,
    sets: &mut Sets,
) -> Result<u16, CompileFault>
    requires chart { IsPartOfChart chart.now }
    requires gathering { IsGathering chart.now gathering.old }
    requires sets { AreFewSets chart.now (lists_of sets.old) }
    requires set { Contains (lists_of sets.old) set.now }
    ensures gathering { OnOk result (IsGathering chart.now gathering.new) }
    ensures sets { OnOk result (AreFewSets chart.now (lists_of sets.new)) }
    ensures kept { OnOk result (Keeps (lists_of sets.old) (lists_of sets.new)) }
    ensures target { IfOk result (IsTargetOf chart.now (lists_of sets.new) set.now byte) }
    ensures err { IfErr result (IsBuildFault chart.now) }
{
    gather_step(chart, set, byte, gathering)?;
    match sets.number(gathering.places()) {
        Ok(number) => Ok(number as u16),
        Err(fault) => Err(fault),
    }
}

// The target of a set and a byte. Bytes that are alike and that no place of the set takes alone have one target, which is found
// once, and kept in `others` for the least of them.
fn shared_target(
    chart: &Chart,
    classes: &ByteClasses,
    named: &[bool; 256],
    set: &[usize],
    byte: u8,
    others: &mut [Option<u16>; 256],
    gathering: &mut Gathering,
    sets: &mut Sets,
) -> Result<u16, CompileFault>
    requires chart { IsPartOfChart chart.now }
    requires alike { AreAlike chart.now classes.now.least }
    requires named { AreNamed chart.now set.now named.now }
    requires gathering { IsGathering chart.now gathering.old }
    requires sets { AreFewSets chart.now (lists_of sets.old) }
    requires set { Contains (lists_of sets.old) set.now }
    requires others { AreShared chart.now classes.now.least named.now (lists_of sets.old) set.now others.old }
    ensures gathering { OnOk result (IsGathering chart.now gathering.new) }
    ensures sets { OnOk result (AreFewSets chart.now (lists_of sets.new)) }
    ensures kept { OnOk result (Keeps (lists_of sets.old) (lists_of sets.new)) }
    ensures others { OnOk result (AreShared chart.now classes.now.least named.now (lists_of sets.new) set.now others.new) }
    ensures target { IfOk result (IsTargetOf chart.now (lists_of sets.new) set.now byte) }
    ensures err { IfErr result (IsBuildFault chart.now) }
{
    if named[byte as usize] {
        return target_of(chart, set, byte, gathering, sets);
    }
    let least = classes.least[byte as usize] as usize;
    if let Some(target) = others[least] {
        return Ok(target);
    }
    let target = target_of(chart, set, byte, gathering, sets)?;
    others[least] = Some(target);
    Ok(target)
}

// Adds the row of a set. A range ends where the next byte has another target; the bytes between two edges have the same one.
fn add_row(
    chart: &Chart,
    classes: &ByteClasses,
    set: &[usize],
    gathering: &mut Gathering,
    sets: &mut Sets,
    ranges: &mut Vec<TargetRange>,
) -> Result<(), CompileFault>
    requires chart { IsPartOfChart chart.now }
    requires alike { AreAlike chart.now classes.now.least }
    requires edges { AreEdges classes.now.least classes.now.edges.words }
    requires gathering { IsGathering chart.now gathering.old }
    requires sets { AreFewSets chart.now (lists_of sets.old) }
    requires set { Contains (lists_of sets.old) set.now }
    ensures gathering { OnOk result (IsGathering chart.now gathering.new) }
    ensures sets { OnOk result (AreFewSets chart.now (lists_of sets.new)) }
    ensures kept { OnOk result (Keeps (lists_of sets.old) (lists_of sets.new)) }
    ensures row { OnOk result (IsRowAppended (IsTargetOf chart.now (lists_of sets.new) set.now) ranges.old.items ranges.new.items) }
    ensures err { IfErr result (IsBuildFault chart.now) }
{
    let marks = Marks::of(chart, classes, set);
    let named = &marks.named;
    let mut others: [Option<u16>; 256] = [None; 256];
    let mut target = shared_target(chart, classes, named, set, 0, &mut others, gathering, sets)?;
    let mut from = 1;
    while let Some(byte) = marks.edges.next_from(from) {
        from = byte + 1;
        let next = shared_target(
            chart,
            classes,
            named,
            set,
            byte as u8,
            &mut others,
            gathering,
            sets,
        )?;
        if next == target {
            continue;
        }
        let last = (byte - 1) as u8;
        keep(ranges, TargetRange { last, target })?;
        target = next;
    }
    keep(ranges, TargetRange { last: 255, target })?;
    Ok(())
}

// The hits of a set: those of the chart's rule, whose number is 1, if its end is in the set.
fn record_of(chart: &Chart, set: &[usize]) -> Record
    requires { length chart.now.rules.items ≡ 1 }
    ensures { IsRecordOf chart.now set.now result }
{
    records_are_their_hits();
    let rule = chart.rules[0];
    if set.contains(&rule.end) {
        Record::none().with_rule(rule.kind, rule.perms, 1)
    } else {
        Record::none()
    }
}
