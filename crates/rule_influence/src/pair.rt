//! Rules in both orders.
ghost use Rattle.std.specs.Prelude.{◌≡◌, IfErr, IfOk, reverse};
ghost use Rattle.glob_automaton.specs.Automata.{IsCompileFault, most_sets};
ghost use Rattle.glob_automaton.specs.Sets.{AreMoreThan};
ghost use Rattle.rule_profile.specs.Profile.{profile_value};
ghost use Rattle.rule_profile.specs.RuleSpans.{profile_spans};

use derived_profiles::reversed;
use glob_automaton::CompileFault;
use profile_questions::CompiledRules;
use rule_profile::Profile;
use std::alloc::Global;
use std::marker::Model;

/// The rules of a profile, compiled in their order and in the reverse order. So the least hits of a name by both are the first and
/// the last rules that hit it.
#[derive(Drop)]
pub struct RulePair {
    rules: CompiledRules,
    reversed: CompiledRules,
}

impl Model for RulePair {
    ghost use Rattle.std.specs.Prelude.{◌≡◌, reverse};
    ghost use Rattle.profile_questions.specs.Names.{CompiledValue};

    ghost Value = { CompiledValue };

    ghost view = { λ pair. pair.rules };

    ghost invariant = { λ pair. pair.reversed.rules ≡ reverse pair.rules.rules };
}

impl RulePair {
    /// Compiles the rules of a profile in both orders. Refused exactly if they have too many states, memory aside: in the reverse
    /// order they have as many.
    pub fn of(alloc: Global, profile: Profile) -> Result<RulePair, CompileFault>
        ensures rules { IfOk result (λ pair. pair.rules ≡ (profile_value profile).rules) }
        ensures spans { IfOk result (λ pair. pair.spans ≡ profile_spans profile) }
        ensures few { IfOk result (λ _. ¬ (AreMoreThan most_sets (profile_value profile).rules)) }
        ensures err { IfErr result (IsCompileFault (profile_value profile).rules) }
    {
        let Ok(last_first) = reversed(alloc, &profile) else {
            return Err(CompileFault::NoMemory);
        };
        let reversed = CompiledRules::of(alloc, last_first)?;
        let rules = CompiledRules::of(alloc, profile)?;
        Ok(RulePair { rules, reversed })
    }

    /// The rules in their order.
    pub fn rules(&self) -> &CompiledRules
        ensures rules { result.now.rules ≡ self.now.rules }
        ensures spans { result.now.spans ≡ self.now.spans }
    {
        &self.rules
    }

    /// The rules in the reverse order.
    pub fn reversed(&self) -> &CompiledRules
        ensures { result.now.rules ≡ reverse self.now.rules }
    {
        &self.reversed
    }
}
