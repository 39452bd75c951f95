//! Rules that are compiled and compared, and how it is reported that they can't be.
ghost use Rattle.std.specs.Prelude.{◌≡◌, [], IfErr, IfOk};
ghost use Rattle.glob_automaton.specs.Automata.{most_sets};
ghost use Rattle.glob_automaton.specs.Sets.{AreMoreThan};
ghost use Rattle.profile_questions.specs.Faults.{IsQuestionFault};
ghost use Rattle.rule_profile.specs.Profile.{profile_value};
ghost use Rattle.rule_profile.specs.RuleSpans.{profile_spans};
ghost use Rattle.trace_questions.specs.inner.Comparisons.{IsCompileRefusal, IsMemory, IsQuestionRefusal};

use derived_profiles::without_rules;
use glob_automaton::CompileFault;
use matcher::MakeFault;
use names::NoMemory;
use profile_questions::{Comparison, CompiledRules, QuestionFault};
use rule_profile::Profile;
use std::alloc::Global;
use trace_report::Fault;

/// Compiles the rules of a profile.
pub(crate) fn compiled(alloc: Global, profile: Profile) -> Result<CompiledRules, Fault>
    ensures rules { IfOk result (λ compiled. compiled.rules ≡ (profile_value profile).rules) }
    ensures spans { IfOk result (λ compiled. compiled.spans ≡ profile_spans profile) }
    ensures few { IfOk result (λ _. ¬ (AreMoreThan most_sets (profile_value profile).rules)) }
    ensures err { IfErr result (IsCompileRefusal (profile_value profile).rules) }
{
    match CompiledRules::of(alloc, profile) {
        Ok(compiled) => Ok(compiled),
        Err(CompileFault::TooManyStates) => Err(Fault::Compiling(MakeFault::TooManyStates)),
        Err(CompileFault::NoMemory) => Err(Fault::Memory),
    }
}

/// The compiled rules of a profile that has none.
pub(crate) fn no_rules(alloc: Global) -> Result<CompiledRules, Fault>
    ensures rules { IfOk result (λ compiled. compiled.rules ≡ []) }
    ensures few { IfOk result (λ _. ¬ (AreMoreThan most_sets [])) }
    ensures err { IfErr result IsMemory }
{
    match without_rules(alloc) {
        Ok(profile) => compiled(alloc, profile),
        Err(NoMemory) => Err(Fault::Memory),
    }
}

/// Runs all names through three lists of rules at once.
pub(crate) fn compared<'a>(
    alloc: Global,
    first: &'a CompiledRules,
    second: &'a CompiledRules,
    third: &'a CompiledRules,
) -> Result<Comparison<'a>, Fault>
    ensures first { IfOk result (λ c. c.first ≡ first.now.rules) }
    ensures second { IfOk result (λ c. c.second ≡ second.now.rules) }
    ensures third { IfOk result (λ c. c.third ≡ third.now.rules) }
    ensures few { IfOk result (λ _. ¬ (IsQuestionFault first.now.rules second.now.rules third.now.rules
        QuestionFault.TooManyStates)) }
    ensures err { IfErr result (IsQuestionRefusal first.now.rules second.now.rules third.now.rules) }
{
    match Comparison::of(alloc, first, second, third) {
        Ok(comparison) => Ok(comparison),
        Err(QuestionFault::TooManyStates) => Err(Fault::Question),
        Err(QuestionFault::NoMemory) => Err(Fault::Memory),
    }
}
