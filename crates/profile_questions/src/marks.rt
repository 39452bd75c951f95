//! Which states of an automaton say what is wanted.
ghost use Rattle.std.specs.Prelude.{◌≡◌, ◌<◌, ◌++◌, ◌∷◌, [], IfOk, OnOk, false, length, slice_index_or};
ghost use Rattle.profile_questions.specs.inner.Marks.{AreMarked, all_marked};

use crate::answer::Answer;
use automaton_rows::Dfa;
use automaton_search::States;
use names::NoMemory;
use std::alloc::Global;

/// For each state whether its record says what is wanted.
pub(crate) fn marks_of(
    alloc: Global,
    automaton: &Dfa,
    answer: Answer,
) -> Result<Vec<bool>, NoMemory>
    ensures long { IfOk result (λ marks. length marks.items ≡ length automaton.now.rows) }
    ensures marks { IfOk result (λ marks. AreMarked automaton.now answer marks.items) }
{
    let mut marks = Vec::new(alloc);
    for state in 0..automaton.states() {
        let mark = answer.is_told_by(&automaton.record_at(state));
        push(&mut marks, mark)?;
    }
    Ok(marks)
}

/// For each state of each of three automata whether its record says what is wanted.
#[derive(Drop)]
pub(crate) struct Marks {
    pub(crate) first: Vec<bool>,
    pub(crate) second: Vec<bool>,
    pub(crate) third: Vec<bool>,
}

impl Marks {
    /// Whether all three states are marked.
    pub(crate) fn are_set(&self, states: States) -> bool
        requires first { states.first < length self.now.first.items }
        requires second { states.second < length self.now.second.items }
        requires third { states.third < length self.now.third.items }
        ensures { result ≡ all_marked self.now.first.items self.now.second.items self.now.third.items states }
    {
        is_set(&self.first, states.first)
            && is_set(&self.second, states.second)
            && is_set(&self.third, states.third)
    }
}

// Whether a state is marked.
fn is_set(marks: &[bool], state: u32) -> bool
    requires { state < length marks.now }
    ensures { result ≡ slice_index_or marks.now state false }
{
    marks[state as usize]
}

// Appends a mark.
fn push(marks: &mut Vec<bool>, mark: bool) -> Result<(), NoMemory>
    ensures { OnOk result (marks.new.items ≡ marks.old.items ++ mark ∷ []) }
{
    match marks.push(mark) {
        Ok(()) => Ok(()),
        Err(_) => Err(NoMemory),
    }
}
