//! The automata of single rules.
ghost use Rattle.std.specs.Prelude.{◌≡◌, ℕ, ◌+◌, IfOk, IfErr, IfSome, IsTrue, OnOk, List, Some, slice_get};
ghost use Rattle.rule_profile.specs.Profile.{RuleValue, rule_value};
ghost use Rattle.rule_profile.specs.Readable.{begins_with_slash};
ghost use Rattle.glob_automaton.specs.Automata.{IsCompileFault};
ghost use Rattle.glob_automaton.specs.Parts.{IsAutomatonOfPart};
ghost use Rattle.glob_automaton.specs.inner.ChartStates.{IsBuilt};
ghost use Rattle.glob_automaton.specs.inner.Drawings.{AreSame};
ghost use Rattle.glob_automaton.specs.inner.Leaves.{hits_alone, where_read, AreBuilt, IsWithHits};

use crate::chart::Chart;
use crate::subsets::{build, keep};
use automaton_rows::{CompileFault, Dfa};
use names::{Permission, Record, records_are_their_hits};
use rule_globs::{live_is_left_first, live_places_go_on};
use rule_profile::Rule;
use std::alloc::{AllocError, Global};

/// The automaton of a path, next to the chart that it was built from.
#[derive(Drop)]
struct PathAutomaton {
    chart: Chart,
    dfa: Dfa,
}

/// The most states of the automata that are kept, all together. So what is kept takes a few megabytes, whatever the paths are.
const MOST_KEPT: usize = 65536;

/// The automata of the paths so far. Rules with equal paths share one.
#[derive(Drop)]
pub(crate) struct Leaves {
    alloc: Global,
    built: Vec<PathAutomaton>,
    // How many states they have, all together.
    states: usize,
}

impl Leaves {
    /// None so far.
    pub(crate) fn new(alloc: Global) -> Leaves
        ensures { AreBuilt result }
    {
        Leaves {
            alloc,
            built: Vec::new(alloc),
            states: 0,
        }
    }

    /// The automaton of the rule with this number, as a part of a profile's: its hits have the number.
    pub(crate) fn leaf(&mut self, rule: &Rule, number: u16) -> Result<Dfa, CompileFault>
        requires built { AreBuilt self.old }
        requires slash { IsTrue (begins_with_slash (rule_value rule.now).items) }
        ensures built { OnOk result (AreBuilt self.new) }
        ensures ok { IfOk result (λ dfa. (rules : List RuleValue) (before : ℕ) → number ≡ before + 1 → slice_get rules before
            ≡ Some (rule_value rule.now) →
            IsAutomatonOfPart rules before (before + 1) dfa) }
        ensures err { IfErr result (λ fault. (rules : List RuleValue) (before : ℕ) → slice_get rules before ≡ Some (rule_value rule.now) →
            IsCompileFault rules fault) }
    {
        live_places_go_on();
        live_is_left_first();
        records_are_their_hits();
        let hits = hits_alone(rule, number);
        let chart = Chart::of_path(self.alloc, rule)?;
        if let Some(path) = self.find(&chart) {
            return Ok(with_hits(self.alloc, &path.dfa, &hits)?);
        }
        let dfa = match build(self.alloc, &chart) {
            Ok(dfa) => dfa,
            Err(fault) => return Err(fault),
        };
        let leaf = with_hits(self.alloc, &dfa, &hits)?;
        self.make_room(dfa.states() as usize);
        keep(&mut self.built, PathAutomaton { chart, dfa })?;
        Ok(leaf)
    }

    // Counts the states of one more automaton, and forgets the others if they would be too many with it.
    fn make_room(&mut self, states: usize)
        requires { AreBuilt self.old }
        ensures { AreBuilt self.new }
    {
        let all = self.states.saturating_add(states);
        if all <= MOST_KEPT {
            self.states = all;
        } else {
            self.built.clear();
            self.states = states;
        }
    }

    // The automaton that was built from an equal chart, if there is one.
    fn find(&self, chart: &Chart) -> Option<&PathAutomaton>
        requires { AreBuilt self.now }
        ensures { IfSome result (λ path. AreSame chart.now path.now.chart × IsBuilt path.now.chart path.now.dfa) }
    {
        for path in &self.built {
            if chart.is_same(&path.chart) {
                return Some(path);
            }
        }
        None
    }
}

// What the rule with this number hits, where its path matches: it holds what its letters give, with w append as well.
fn hits_alone(rule: &Rule, number: u16) -> Record
    ensures { result ≡ hits_alone (rule_value rule.now) number }
{
    Record::none().with_rule(rule.kind(), rule.perms().held(), number)
}

// The same automaton, with these hits where reading is allowed.
fn with_hits(alloc: Global, dfa: &Dfa, hits: &Record) -> Result<Dfa, AllocError>
    ensures { IfOk result (IsWithHits hits.now dfa.now) }
{
    let mut records = Vec::with_capacity(alloc, dfa.states() as usize)?;
    for state in 0..dfa.states() {
        records.push(where_read(&dfa.record_at(state), hits))?;
    }
    dfa.with_records(alloc, records)
}

// These hits if the record allows reading, and else none.
fn where_read(old: &Record, hits: &Record) -> Record
    ensures { result ≡ where_read hits.now old.now }
{
    if old.of(Permission::Read).allow == 0 {
        Record::none()
    } else {
        *hits
    }
}
