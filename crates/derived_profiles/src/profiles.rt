//! Profiles with other rules than the one that they are made of.
ghost use Rattle.std.specs.Prelude.{◌≡◌, ◌≤◌, ◌∷◌, ◌++◌, [], IfOk, IsTrue, codes, filter, length, map};
ghost use Rattle.std.specs.List.{list_all};
ghost use Rattle.rule_globs.specs.Verdict.{IsRuleAt};
ghost use Rattle.rule_profile.specs.Profile.{RuleValue, rule_value, profile_value};
ghost use Rattle.rule_profile.specs.Readable.{is_rule, is_profile};
ghost use Rattle.derived_profiles.specs.Derived.{is_allow, reversed, allow_rules, alone, without_rules};

use names::{NoMemory, RuleKind};
use rule_making::copy_of;
use rule_profile::{Profile, Rule};
use std::alloc::Global;

/// The profile with its rules in reverse order, the last one first.
pub fn reversed(alloc: Global, profile: &Profile) -> Result<Profile, NoMemory>
    ensures { IfOk result (λ derived. profile_value derived ≡ reversed (profile_value profile.now)) }
{
    let mut rules = rules_copy(alloc, profile.rules())?;
    rules.reverse();
    profile_with(alloc, profile.name(), rules)
}

/// The profile with its allow rules alone, in their order.
pub fn allow_rules(alloc: Global, profile: &Profile) -> Result<Profile, NoMemory>
    ensures { IfOk result (λ derived. profile_value derived ≡ allow_rules (profile_value profile.now)) }
{
    let rules = allow_copies(alloc, profile.rules())?;
    profile_with(alloc, profile.name(), rules)
}

/// The profile with the one rule that has this number, from 1 on, as an allow rule: it allows what that rule allows or denies.
pub fn alone(alloc: Global, profile: &Profile, number: u16) -> Result<Profile, NoMemory>
    requires from { 1 ≤ number }
    requires to { number ≤ length (profile_value profile.now).rules }
    ensures { IfOk result (λ derived. (rule : RuleValue) × IsRuleAt (profile_value profile.now).rules number rule
        × (profile_value derived ≡ alone (profile_value profile.now) rule)) }
{
    let rule = rule_copy(alloc, RuleKind::Allow, rule_at(profile, number))?;
    let rules = one_rule(alloc, rule)?;
    profile_with(alloc, profile.name(), rules)
}

/// The profile without rules, which allows nothing. Its name is `empty`.
pub fn without_rules(alloc: Global) -> Result<Profile, NoMemory>
    ensures { IfOk result (λ profile. profile_value profile ≡ without_rules) }
{
    profile_with(alloc, b"empty", Vec::new(alloc))
}

/// The profile with these rules and this name.
pub(crate) fn profile_with(
    alloc: Global,
    name: &[u8],
    rules: Vec<Rule>,
) -> Result<Profile, NoMemory>
    requires { IsTrue (is_profile (record { name = name.now; rules = map rule_value rules.items })) }
    ensures { IfOk result (λ profile. profile_value profile ≡ record { name = name.now; rules = map rule_value rules.items }) }
{
    match Vec::from_slice(alloc, name) {
        Ok(name) => Ok(Profile::new(name, rules)),
        Err(_) => Err(NoMemory),
    }
}

/// The rule with this number, from 1 on.
fn rule_at(profile: &Profile, number: u16) -> &Rule
    requires from { 1 ≤ number }
    requires to { number ≤ length (profile_value profile.now).rules }
    ensures at { IsRuleAt (profile_value profile.now).rules number (rule_value result.now) }
    ensures rule { IsTrue (is_rule (rule_value result.now)) }
{
    &profile.rules()[number as usize - 1]
}

/// A rule of this kind with the permissions and the path of another.
fn rule_copy(alloc: Global, kind: RuleKind, rule: &Rule) -> Result<Rule, NoMemory>
    requires { IsTrue (is_rule (rule_value rule.now)) }
    ensures { IfOk result (λ copy. rule_value copy
        ≡ record { kind = kind; perms = (rule_value rule.now).perms; items = (rule_value rule.now).items }) }
{
    let path = copy_of(alloc, rule.path())?;
    Ok(Rule::new(kind, rule.perms(), path))
}

fn rules_copy(alloc: Global, rules: &[Rule]) -> Result<Vec<Rule>, NoMemory>
    requires { IsTrue (list_all is_rule (map rule_value rules.now)) }
    ensures { IfOk result (λ copies. map rule_value copies.items ≡ map rule_value rules.now) }
{
    let mut copies = Vec::new(alloc);
    for rule in rules {
        let copy = rule_copy(alloc, rule.kind(), rule)?;
        put_rule(&mut copies, copy)?;
    }
    Ok(copies)
}

/// Copies of the allow rules.
fn allow_copies(alloc: Global, rules: &[Rule]) -> Result<Vec<Rule>, NoMemory>
    requires { IsTrue (list_all is_rule (map rule_value rules.now)) }
    ensures { IfOk result (λ copies. map rule_value copies.items ≡ filter is_allow (map rule_value rules.now)) }
{
    let mut copies = Vec::new(alloc);
    for rule in rules {
        if matches!(rule.kind(), RuleKind::Allow) {
            let copy = rule_copy(alloc, RuleKind::Allow, rule)?;
            put_rule(&mut copies, copy)?;
        }
    }
    Ok(copies)
}

/// This rule alone.
pub(crate) fn one_rule(alloc: Global, rule: Rule) -> Result<Vec<Rule>, NoMemory>
    ensures { IfOk result (λ rules. rules.items ≡ rule ∷ []) }
{
    let mut rules = Vec::new(alloc);
    put_rule(&mut rules, rule)?;
    Ok(rules)
}

/// Adds a rule.
fn put_rule(rules: &mut Vec<Rule>, rule: Rule) -> Result<(), NoMemory>
    ensures { IfOk result (λ _. rules.new.items ≡ rules.old.items ++ rule ∷ []) }
{
    match rules.push(rule) {
        Ok(()) => Ok(()),
        Err(_) => Err(NoMemory),
    }
}
