//! What each rule decides.
ghost use Rattle.std.specs.Prelude.{[], IfErr, IfOk};
ghost use Rattle.profile_questions.specs.Faults.{IsQuestionFault};
ghost use Rattle.rule_influence.specs.Influence.{AreDecided};

use crate::notes::{note, nothing_decided};
use crate::pair::RulePair;
use names::Perms;
use profile_questions::{Comparison, QuestionFault};
use std::alloc::Global;

/// The permissions that each rule decides, in the order of the rules: to some name they are allowed with the rule and not without
/// it, or without it and not with it. For all other permissions a rule is idle: with and without it they are allowed to the same
/// names. Refused exactly if names have too many sets of live places, memory aside.
pub fn decided(alloc: Global, pair: &RulePair) -> Result<Vec<Perms>, QuestionFault>
    ensures ok { IfOk result (λ decided. AreDecided pair.now.rules decided.items) }
    ensures few { IfOk result (λ _. ¬ (IsQuestionFault pair.now.rules [] [] QuestionFault.TooManyStates)) }
    ensures err { IfErr result (IsQuestionFault pair.now.rules [] []) }
{
    // Two lists are enough. The third adds no sets of live places to those of the first, nor does the second.
    let comparison = Comparison::of(alloc, pair.rules(), pair.reversed(), pair.rules())?;
    let count = pair.rules().profile().rules().len();
    let Ok(mut decided) = nothing_decided(alloc, count) else {
        return Err(QuestionFault::NoMemory);
    };
    for index in 0..comparison.len() {
        if let Some(records) = comparison.records(index) {
            note(&mut decided, &records.first, &records.second);
        }
    }
    Ok(decided)
}
