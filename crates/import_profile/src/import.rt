//! Imports of one profile of a text.
ghost use Rattle.std.specs.Prelude.{◌≡◌, IfOk, IsTrue, option_map, map};
ghost use Rattle.std.specs.List.{list_all};
ghost use Rattle.import_scope.specs.Scopes.{can_be_said};
ghost use Rattle.import_scope.specs.FirstFaults.{variables_within};
ghost use Rattle.rule_profile.specs.Readable.{is_rule};
ghost use Rattle.rule_profile.specs.Rules.{rule_value};
ghost use Rattle.rule_profile.specs.RuleSpans.{rule_span};
ghost use Rattle.import_profile.specs.Imports.{changes_something, first_change, counted_outcome, chosen_outcome, origin_of};
ghost use Rattle.import_profile.specs.Told.{Tells};

use crate::added::push_added_rules;
use crate::fault::{ImportFailure, ImportFault};
use crate::gathered::gather;
use crate::placed::{PlacedRule, one_too_many};
use apparmor_rules::Extent;
use apparmor_text::Item;
use import_scope::{Scope, lists_of};
use import_spans::{Choice, Span, SpanKind};
use names::NoMemory;
use rule_profile::{Profile, Rule};
use std::alloc::Global;

/// An imported profile, and the spans of the text that it was imported from: which parts are kept, blank, or reported. The span of
/// each rule is empty, at the place in the text of what the rule comes from.
#[derive(Drop)]
pub struct Imported {
    pub profile: Profile,
    pub spans: Vec<Span>,
}

/// Whether the span changes something for the chosen subject.
fn changes_something(span: &Span) -> bool
    ensures { result ≡ changes_something span.now.kind }
{
    match &span.kind {
        SpanKind::Kept | SpanKind::Blank => false,
        SpanKind::Told(told) => told.effect().on_chosen != Extent::Exact,
    }
}

/// Returns the start of the first span that changes something for the chosen subject.
fn first_change(spans: &[Span]) -> Option<usize>
    ensures { result ≡ option_map (λ span. span.start) (first_change spans.now) }
{
    spans
        .iter()
        .find(|span| changes_something(span))
        .map(|span| span.start)
}

/// Returns the rules, with their places as spans.
fn rules_of(alloc: Global, placed: Vec<PlacedRule>) -> Result<Vec<Rule>, NoMemory>
    ensures values { IfOk result (λ rules. map rule_value rules.items ≡ map (λ r. r.value) placed.items) }
    ensures origins { IfOk result (λ rules. map rule_span rules.items ≡ map origin_of placed.items) }
    ensures readable { IfOk result (λ rules. IsTrue (list_all is_rule (map rule_value rules.items))) }
{
    let mut rules = Vec::new(alloc);
    for rule in placed {
        if rules.push(rule.into_rule()).is_err() {
            return Err(NoMemory);
        }
    }
    Ok(rules)
}

/// Returns the profile of this name and these rules, and the spans, unless there are too many rules, or something changes for
/// the chosen subject where nothing may.
fn finish<'t>(
    alloc: Global,
    strict: bool,
    name: &[u8],
    spans: Vec<Span>,
    placed: Vec<PlacedRule>,
) -> Result<Imported, ImportFailure<'t>>
    requires { IsTrue (can_be_said name.now) }
    ensures { Tells (λ outcome. outcome ≡ counted_outcome strict name.now spans.items placed.items) result }
{
    if let Some(place) = one_too_many(&placed) {
        return Err(ImportFailure::At(ImportFault::TooManyRules { place }));
    }
    if strict {
        if let Some(place) = first_change(&spans) {
            return Err(ImportFailure::At(ImportFault::NotExact { place }));
        }
    }
    let rules = rules_of(alloc, placed)?;
    let Ok(name) = Vec::from_slice(alloc, name) else {
        return Err(ImportFailure::NoMemory);
    };
    let profile = Profile::new(name, rules);
    Ok(Imported { profile, spans })
}

/// Imports the profile of a choice, whose full name is this.
pub(crate) fn import_chosen<'x, 't>(
    alloc: Global,
    strict: bool,
    choice: Choice,
    scope: &'x Scope<'_>,
    name: &'x [u8],
    items: &'x [Item<'_>],
) -> Result<Imported, ImportFailure<'t>>
    requires { IsTrue (can_be_said name.now) }
    ensures { Tells (λ outcome. outcome ≡ chosen_outcome strict (variables_within scope.now.variables.items name.now) choice
        name.now items.now) result }
{
    let mut lists = lists_of(alloc, &scope.variables, name)?;
    let (cut, mut rules) = gather(alloc, choice, &mut lists, items)?;
    let text = cut.finish()?;
    push_added_rules(
        alloc,
        &mut rules,
        choice.subject,
        text.changes_profile,
        text.has_hat,
    )?;
    finish(alloc, strict, name, text.spans, rules)
}
