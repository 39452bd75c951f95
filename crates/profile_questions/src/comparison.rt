//! Three lists of rules, and all that they say of names.
ghost use Rattle.std.specs.Prelude.{◌≡◌, ◌<◌, ◌≤◌, ℕ, IfErr, IfOk, IfSome, List, None, Some, length, slice_get};
ghost use Rattle.automaton_search.specs.Visits.{most_visits};
ghost use Rattle.profile_questions.specs.Faults.{IsQuestionFault};
ghost use Rattle.profile_questions.specs.Names.{AreLeastHits, AreRepresentatives};
ghost use Rattle.profile_questions.specs.Questions.{IsShortest, found_name};

use crate::answer::Answers;
use crate::fault::QuestionFault;
use crate::marks::{Marks, marks_of};
use crate::rules::CompiledRules;
use automaton_search::Visits;
use names::{NoMemory, Record};
use rule_globs::{end_is_live, live_is_left_first};
use std::alloc::Global;
use std::marker::Model;

/// Three lists of rules, and names that represent all names: no rule distinguishes a name from its representative. A list that
/// isn't needed has no rules.
#[derive(Drop)]
pub struct Comparison<'a> {
    first: &'a CompiledRules,
    second: &'a CompiledRules,
    third: &'a CompiledRules,
    visits: Visits,
}

impl<'a> Model for Comparison<'a> {
    ghost use Rattle.profile_questions.specs.Names.{ComparisonValue};
    ghost use Rattle.profile_questions.specs.inner.Comparisons.{IsComparison, compared};

    ghost Value = { ComparisonValue };

    ghost view = { λ c. compared c.first.now c.second.now c.third.now c.visits };

    ghost invariant = { λ c. IsComparison c.first.now c.second.now c.third.now c.visits };
}

/// The least hits of a name by each of three lists of rules.
#[derive(Clone, Copy, Debug, PartialEq, Eq)]
pub struct Records {
    pub first: Record,
    pub second: Record,
    pub third: Record,
}

impl<'a> Comparison<'a> {
    /// Runs all names through three lists of rules at once. Refused exactly if these have too many states together, memory aside.
    pub fn of(
        alloc: Global,
        first: &'a CompiledRules,
        second: &'a CompiledRules,
        third: &'a CompiledRules,
    ) -> Result<Comparison<'a>, QuestionFault>
        ensures first { IfOk result (λ c. c.first ≡ first.now.rules) }
        ensures second { IfOk result (λ c. c.second ≡ second.now.rules) }
        ensures third { IfOk result (λ c. c.third ≡ third.now.rules) }
        ensures few { IfOk result (λ _. ¬ (IsQuestionFault first.now.rules second.now.rules third.now.rules
            QuestionFault.TooManyStates)) }
        ensures err { IfErr result (IsQuestionFault first.now.rules second.now.rules third.now.rules) }
    {
        let visits = Visits::of(
            alloc,
            first.automaton(),
            second.automaton(),
            third.automaton(),
        )?;
        Ok(Comparison {
            first,
            second,
            third,
            visits,
        })
    }

    /// How many representatives there are: at least one, and 4,194,304 at most.
    pub fn len(&self) -> usize
        ensures len { result ≡ length self.now.names }
        ensures names { AreRepresentatives self.now }
        ensures some { 1 ≤ result }
        ensures few { result ≤ most_visits }
    {
        end_is_live();
        live_is_left_first();
        self.visits.len()
    }

    /// The least hits of the representative with this index, if there is one.
    pub fn records(&self, index: usize) -> Option<Records>
        ensures none { result ≡ None → length self.now.names ≤ index }
        ensures some { IfSome result (λ records. (name : List ℕ) × (slice_get self.now.names index ≡ Some name)
            × AreLeastHits self.now name records) }
    {
        let states = self.visits.states(index)?;
        Some(Records {
            first: self.first.automaton().record_at(states.first),
            second: self.second.automaton().record_at(states.second),
            third: self.third.automaton().record_at(states.third),
        })
    }

    /// The representative with this index.
    pub fn name(&self, alloc: Global, index: usize) -> Result<Vec<u8>, NoMemory>
        requires { index < length self.now.names }
        ensures { IfOk result (λ name. slice_get self.now.names index ≡ Some name.items) }
    {
        match self.visits.name(alloc, index) {
            Ok(name) => Ok(name),
            Err(_) => Err(NoMemory),
        }
    }

    /// The least name of which all three say what is wanted: none is shorter, and of those of its length it is the first in byte
    /// order begun at `a`. None if there is no such name.
    pub fn shortest(&self, alloc: Global, answers: Answers) -> Result<Option<Vec<u8>>, NoMemory>
        ensures { IfOk result (λ found. IsShortest self.now answers (found_name found)) }
    {
        let marks = Marks {
            first: marks_of(alloc, self.first.automaton(), answers.first)?,
            second: marks_of(alloc, self.second.automaton(), answers.second)?,
            third: marks_of(alloc, self.third.automaton(), answers.third)?,
        };
        for index in 0..self.visits.len() {
            let Some(states) = self.visits.states(index) else {
                return Ok(None);
            };
            if marks.are_set(states) {
                return name_at(&self.visits, alloc, index);
            }
        }
        Ok(None)
    }
}

// The name of a visit.
fn name_at(visits: &Visits, alloc: Global, index: usize) -> Result<Option<Vec<u8>>, NoMemory>
    requires { index < length visits.now.states }
    ensures { IfOk result (λ found. found_name found ≡ slice_get visits.now.names index) }
{
    match visits.name(alloc, index) {
        Ok(name) => Ok(Some(name)),
        Err(_) => Err(NoMemory),
    }
}
