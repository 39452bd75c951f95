//! What is asked about rules, and how it is reported that it can't be answered.
ghost use Rattle.std.specs.Prelude.{◌≡◌, [], List, IfErr, IfOk, map};
ghost use Rattle.glob_automaton.specs.Automata.{most_sets};
ghost use Rattle.glob_automaton.specs.Sets.{AreMoreThan};
ghost use Rattle.profile_questions.specs.Faults.{IsQuestionFault};
ghost use Rattle.rule_influence.specs.Influence.{AreDecided};
ghost use Rattle.rule_influence.specs.StandIns.{AreStandIns};
ghost use Rattle.rule_profile.specs.Profile.{RuleValue, profile_value};
ghost use Rattle.rule_profile.specs.RuleSpans.{profile_spans};
ghost use Rattle.trace_lint.specs.inner.Questions.{IsCompileRefusal, IsQuestionRefusal};

use glob_automaton::CompileFault;
use matcher::MakeFault;
use names::Perms;
use profile_questions::QuestionFault;
use rule_influence::{IdleCase, RulePair, decided, stand_ins};
use rule_profile::Profile;
use std::alloc::Global;
use trace_report::Fault;

/// Compiles the rules of a profile in both orders.
pub(crate) fn paired(alloc: Global, profile: Profile) -> Result<RulePair, Fault>
    ensures rules { IfOk result (λ pair. pair.rules ≡ (profile_value profile).rules) }
    ensures spans { IfOk result (λ pair. pair.spans ≡ profile_spans profile) }
    ensures few { IfOk result (λ _. ¬ (AreMoreThan most_sets (profile_value profile).rules)) }
    ensures err { IfErr result (IsCompileRefusal (profile_value profile).rules) }
{
    match RulePair::of(alloc, profile) {
        Ok(pair) => Ok(pair),
        Err(CompileFault::TooManyStates) => Err(Fault::Compiling(MakeFault::TooManyStates)),
        Err(CompileFault::NoMemory) => Err(Fault::Memory),
    }
}

/// What each rule decides.
pub(crate) fn decided_by(alloc: Global, pair: &RulePair) -> Result<Vec<Perms>, Fault>
    ensures ok { IfOk result (λ decided. AreDecided pair.now.rules decided.items) }
    ensures few { IfOk result (λ _. ¬ (IsQuestionFault pair.now.rules [] [] QuestionFault.TooManyStates)) }
    ensures err { IfErr result (IsQuestionRefusal pair.now.rules) }
{
    match decided(alloc, pair) {
        Ok(decided) => Ok(decided),
        Err(fault) => Err(reported(fault)),
    }
}

/// The stand-ins of each case. Where there is no case, names aren't gone through.
pub(crate) fn stand_ins_of(
    alloc: Global,
    pair: &RulePair,
    cases: &[IdleCase],
) -> Result<Vec<Vec<u16>>, Fault>
    ensures ok { IfOk result (λ lists. AreStandIns pair.now.rules cases.now (map (λ list. list.items) lists.items)) }
    ensures err { IfErr result (IsQuestionRefusal pair.now.rules) }
{
    if cases.is_empty() {
        return Ok(Vec::new(alloc));
    }
    match stand_ins(alloc, pair, cases) {
        Ok(lists) => Ok(lists),
        Err(fault) => Err(reported(fault)),
    }
}

// The fault as it is reported.
fn reported(fault: QuestionFault) -> Fault
    ensures { (rules : List RuleValue) → IsQuestionFault rules [] [] fault → IsQuestionRefusal rules result }
{
    match fault {
        QuestionFault::TooManyStates => Fault::Question,
        QuestionFault::NoMemory => Fault::Memory,
    }
}
