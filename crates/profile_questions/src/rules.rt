//! Rules and their automaton.
ghost use Rattle.std.specs.Prelude.{◌≡◌, IfErr, IfOk};
ghost use Rattle.glob_automaton.specs.Automata.{IsAutomatonOf, IsCompileFault, most_sets};
ghost use Rattle.glob_automaton.specs.Sets.{AreMoreThan};
ghost use Rattle.rule_profile.specs.Profile.{profile_value};
ghost use Rattle.rule_profile.specs.RuleSpans.{profile_spans};

use automaton_rows::Dfa;
use glob_automaton::{CompileFault, compile};
use rule_profile::Profile;
use std::alloc::Global;
use std::marker::Model;

/// The rules of a profile and their automaton, by which names are compared.
#[derive(Drop)]
pub struct CompiledRules {
    profile: Profile,
    automaton: Dfa,
}

impl Model for CompiledRules {
    ghost use Rattle.glob_automaton.specs.Automata.{IsAutomatonOf};
    ghost use Rattle.rule_profile.specs.Profile.{profile_value};
    ghost use Rattle.rule_profile.specs.RuleSpans.{profile_spans};
    ghost use Rattle.profile_questions.specs.Names.{CompiledValue};

    ghost Value = { CompiledValue };

    ghost view = { λ c. record { rules = (profile_value c.profile).rules; spans = profile_spans c.profile; automaton = c.automaton } };

    ghost invariant = { λ c. IsAutomatonOf (profile_value c.profile).rules c.automaton };
}

impl CompiledRules {
    /// Compiles the rules of a profile. Refused exactly if they have too many states, memory aside.
    pub fn of(alloc: Global, profile: Profile) -> Result<CompiledRules, CompileFault>
        ensures rules { IfOk result (λ compiled. compiled.rules ≡ (profile_value profile).rules) }
        ensures spans { IfOk result (λ compiled. compiled.spans ≡ profile_spans profile) }
        ensures few { IfOk result (λ _. ¬ (AreMoreThan most_sets (profile_value profile).rules)) }
        ensures err { IfErr result (IsCompileFault (profile_value profile).rules) }
    {
        let automaton = compile(alloc, &profile)?;
        Ok(CompiledRules { profile, automaton })
    }

    /// The profile that has these rules.
    pub fn profile(&self) -> &Profile
        ensures rules { (profile_value result.now).rules ≡ self.now.rules }
        ensures spans { profile_spans result.now ≡ self.now.spans }
    {
        &self.profile
    }

    // Their automaton.
    pub(crate) fn automaton(&self) -> &Dfa
        ensures automaton { result.now ≡ self.now.automaton }
        ensures of_rules { IsAutomatonOf self.now.rules result.now }
    {
        &self.automaton
    }
}
