//! Restated rules, each with the place of its origin.
ghost use Rattle.std.specs.Prelude.{◌≡◌, ◌++◌, ◌∷◌, [], IfOk, All, IsTrue};
ghost use Rattle.rule_profile.specs.Readable.{is_path};
ghost use Rattle.import_profile.specs.inner.GatheredRules.{one_too_many, restated_values};

use apparmor_rules::{RuleShape, Subject, fitting_letters, restated_perms};
use names::{NoMemory, Perms, RuleKind};
use rule_globs::RulePath;
use rule_profile::{MOST_RULES, Rule, Span};
use std::marker::Model;

/// A rule, and the offset in the text of what it comes from.
#[derive(Drop)]
pub(crate) struct PlacedRule {
    place: usize,
    rule: Rule,
}

impl Model for PlacedRule {
    ghost use Rattle.std.specs.Prelude.{IsTrue};
    ghost use Rattle.rule_profile.specs.Profile.{rule_value};
    ghost use Rattle.rule_profile.specs.Readable.{is_rule};
    ghost use Rattle.import_profile.specs.Restated.{PlacedValue};

    ghost Value = { PlacedValue };

    ghost view = { λ p. record { place = p.place; value = rule_value p.rule } };

    ghost invariant = { λ p. IsTrue (is_rule (rule_value p.rule)) };
}

impl PlacedRule {
    ghost use Rattle.std.specs.Prelude.{◌≡◌, true, IsTrue};
    ghost use Rattle.rule_profile.specs.Readable.{is_path, is_rule};
    ghost use Rattle.rule_profile.specs.Profile.{rule_value};
    ghost use Rattle.rule_profile.specs.RuleSpans.{rule_span};
    ghost use Rattle.import_profile.specs.Imports.{origin_of};
    ghost use Rattle.apparmor_rules.specs.Restatement.{fitting_letters, has_some};

    /// Returns the rule of this kind and this path that holds what a rule with these permissions holds.
    fn new(place: usize, kind: RuleKind, perms: Perms, path: RulePath) -> PlacedRule
        requires some { has_some perms ≡ true }
        requires readable { IsTrue (is_path path) }
        ensures { result ≡ record { place = place; value = record { kind = kind; perms = fitting_letters perms; items = path } } }
    {
        PlacedRule {
            place,
            rule: Rule::new(kind, fitting_letters(perms), path),
        }
    }

    /// Returns the offset in the text of what it comes from.
    pub(crate) fn place(&self) -> usize
        ensures { result ≡ self.now.place }
    {
        self.place
    }

    /// Returns the rule itself, with its place as an empty span.
    pub(crate) fn into_rule(self) -> Rule
        ensures value { rule_value result ≡ self.value }
        ensures origin { rule_span result ≡ origin_of self }
        ensures readable { IsTrue (is_rule (rule_value result)) }
    {
        let place = self.place;
        self.rule.with_span(Span {
            start: place,
            end: place,
        })
    }
}

/// Returns the place of the rule that is one too many, if there is one.
pub(crate) fn one_too_many(rules: &[PlacedRule]) -> Option<usize>
    ensures { result ≡ one_too_many rules.now }
{
    rules.get(MOST_RULES).map(|rule| rule.place())
}

/// Pushes one more rule.
fn push(rules: &mut Vec<PlacedRule>, rule: PlacedRule) -> Result<(), NoMemory>
    ensures { IfOk result (λ _. rules.new.items ≡ rules.old.items ++ (rule ∷ [])) }
{
    match rules.push(rule) {
        Ok(()) => Ok(()),
        Err(_) => Err(NoMemory),
    }
}

/// Adds what a rule is restated as for the chosen subject: a rule with each of its paths, or none.
pub(crate) fn push_restated(
    rules: &mut Vec<PlacedRule>,
    place: usize,
    chosen: Subject,
    shape: RuleShape,
    paths: Vec<RulePath>,
) -> Result<(), NoMemory>
    requires { All (λ path. IsTrue (is_path path)) paths.items }
    ensures { IfOk result (λ _. rules.new.items ≡ rules.old.items ++ restated_values place chosen shape paths.items) }
{
    if !shape.is_restated(chosen) {
        return Ok(());
    }
    let perms = restated_perms(shape.perms, shape.has_target);
    for path in paths {
        push(rules, PlacedRule::new(place, shape.kind, perms, path))?;
    }
    Ok(())
}
