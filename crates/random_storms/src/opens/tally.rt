//! The answers, checked against what was changed.
use super::answers::Answered;
use super::fault::Fault;
use directory_tree::Change;
use justification::Trail;
use matcher::PolicyChange;
use names::Verdict;
use path_guard::Answer;
use std::alloc::Global;
use storm_parts::{DrawnChange, Question};

/// How many answers there were, of each kind, and how many of them are not justified.
#[derive(Clone, Copy, Default)]
pub(crate) struct Counts {
    pub answers: u64,
    pub unjustified: u64,
    pub allowed: u64,
    pub denied: u64,
    pub no_rule: u64,
    pub failed: u64,
    pub no_profile: u64,
    pub busy: u64,
    pub no_entry: u64,
    /// How many of the judged ones were verdicts that the session had kept.
    pub kept: u64,
}

impl Counts {
    /// Counts an answer.
    fn count(&mut self, answered: &Answered, is_justified: bool) {
        self.answers = self.answers.saturating_add(1);
        if !is_justified {
            self.unjustified = self.unjustified.saturating_add(1);
        }
        if answered.is_kept {
            self.kept = self.kept.saturating_add(1);
        }
        let of_kind = match &answered.answer {
            Answer::Judged { verdict, .. } => match verdict {
                Verdict::Allowed => &mut self.allowed,
                Verdict::Denied { .. } => &mut self.denied,
                Verdict::NoRule { .. } => &mut self.no_rule,
            },
            Answer::Failed { .. } => &mut self.failed,
            Answer::NoProfile { .. } => &mut self.no_profile,
            Answer::Busy { .. } => &mut self.busy,
            Answer::NoEntry => &mut self.no_entry,
        };
        *of_kind = of_kind.saturating_add(1);
    }
}

/// Checks the answers against the changes of tree and policy.
pub(crate) fn tally(
    alloc: Global,
    questions: &[Question],
    drawn: &[DrawnChange],
    policy: &[PolicyChange],
    answers: &[Vec<Answered>],
) -> Result<Counts, Fault> {
    let mut changes: Vec<Change<'_>> = Vec::new(alloc);
    for change in drawn {
        // Each of them was made, so that its paths are paths.
        if let Some(change) = change.change() {
            changes.push(change)?;
        }
    }
    let by_question = by_question(alloc, questions.len(), answers)?;
    let mut counts = Counts::default();
    for (question, answers) in questions.iter().zip(&by_question) {
        count_all(alloc, &mut counts, question, &changes, policy, answers)?;
    }
    Ok(counts)
}

/// The answers to each question.
fn by_question(
    alloc: Global,
    questions: usize,
    answers: &[Vec<Answered>],
) -> Result<Vec<Vec<Answered>>, Fault> {
    let mut by_question = Vec::with_capacity(alloc, questions)?;
    for _ in 0..questions {
        by_question.push(Vec::new(alloc))?;
    }
    for own in answers {
        sort_in(&mut by_question, own)?;
    }
    Ok(by_question)
}

fn sort_in(by_question: &mut Vec<Vec<Answered>>, answers: &[Answered]) -> Result<(), Fault> {
    for answered in answers {
        if let Some(same) = by_question.get_mut(answered.question) {
            same.push(*answered)?;
        }
    }
    Ok(())
}

/// Checks the answers to one question against what was changed.
fn count_all(
    alloc: Global,
    counts: &mut Counts,
    question: &Question,
    changes: &[Change<'_>],
    policy: &[PolicyChange],
    answers: &[Answered],
) -> Result<(), Fault> {
    if answers.is_empty() {
        return Ok(());
    }
    let trail = Trail::new(alloc, &question.path, question.ask, changes)?;
    for answered in answers {
        let is_justified = trail.justifies(&answered.answer, answered.profile.as_bytes(), policy);
        counts.count(answered, is_justified);
    }
    Ok(())
}
