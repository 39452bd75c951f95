//! The rules of the chosen profile, and the spans of the text, item by item.
ghost use Rattle.std.specs.Prelude.{◌≡◌, ◌++◌, ◌∷◌, [], IfErr, IfOk, true};
ghost use Rattle.import_spans.specs.CutStates.{at_start};
ghost use Rattle.import_spans.specs.Cuts.{cut_item, cut_items, is_chosen_rule};
ghost use Rattle.import_profile.specs.FileRules.{item_reading, rules_at, rules_in, subject_rule};
ghost use Rattle.import_profile.specs.Restated.{restated_at, restated_rules};
ghost use Rattle.import_profile.specs.Told.{Fails};
ghost use Rattle.import_profile.specs.inner.GatheredRules.{AreTooMany};

use crate::fault::{ImportFailure, ImportFault};
use crate::placed::{PlacedRule, one_too_many, push_restated};
use crate::rule::rule_of;
use apparmor_rules::Subject;
use apparmor_text::{Item, ItemKind};
use apparmor_variables::Lists;
use import_spans::{Choice, Cut};
use names::NoMemory;
use std::alloc::Global;

/// Takes the next item, which is a rule of the chosen profile.
fn take_rule<'a>(
    alloc: Global,
    chosen: Subject,
    lists: &mut Lists<'a>,
    cut: &mut Cut,
    rules: &mut Vec<PlacedRule>,
    item: &'a Item<'_>,
) -> Result<(), NoMemory>
    requires { is_chosen_rule item.now cut.old ≡ true }
    ensures lists { lists.new ≡ lists.old }
    ensures cut { IfOk result (λ _. cut.new ≡ cut_item (item_reading lists.old chosen item.now) item.now cut.old) }
    ensures rules { IfOk result (λ _. rules.new.items
        ≡ rules.old.items ++ restated_at chosen (record { place = cut.old.at; rule = subject_rule lists.old item.now.parts })) }
{
    let rule = rule_of(alloc, chosen, lists, item.parts())?;
    let shape = rule.reading.shape;
    push_restated(rules, cut.place(), chosen, shape, rule.paths)?;
    cut.rule(item, rule.reading)
}

/// Takes the next item.
fn take_item<'a>(
    alloc: Global,
    chosen: Subject,
    lists: &mut Lists<'a>,
    cut: &mut Cut,
    rules: &mut Vec<PlacedRule>,
    item: &'a Item<'_>,
) -> Result<(), NoMemory>
    ensures lists { lists.new ≡ lists.old }
    ensures cut { IfOk result (λ _. cut.new ≡ cut_item (item_reading lists.old chosen item.now) item.now cut.old) }
    ensures rules { IfOk result (λ _. rules.new.items ≡ rules.old.items ++ restated_rules chosen (rules_at lists.old item.now cut.old)) }
{
    if cut.is_in_chosen() && matches!(item.kind(), ItemKind::Rule) {
        take_rule(alloc, chosen, lists, cut, rules, item)
    } else {
        cut.item(item)
    }
}

/// Returns the rules of the chosen profile and the spans; the given variables are those in effect in it. It stops at the first
/// rule that is one too many: what follows that one changes nothing.
pub(crate) fn gather<'a, 't>(
    alloc: Global,
    choice: Choice,
    lists: &mut Lists<'a>,
    items: &'a [Item<'_>],
) -> Result<(Cut, Vec<PlacedRule>), ImportFailure<'t>>
    ensures cut { IfOk result (λ gathered. gathered.0 ≡ cut_items (item_reading lists.old choice.subject) items.now (at_start choice)) }
    ensures rules { IfOk result (λ gathered. gathered.1.items
        ≡ restated_rules choice.subject (rules_in lists.old choice.subject items.now (at_start choice))) }
    ensures too_many { IfErr result (λ failure. Fails (AreTooMany
        (restated_rules choice.subject (rules_in lists.old choice.subject items.now (at_start choice)))) failure) }
{
    let mut cut = Cut::new(alloc, choice);
    let mut rules = Vec::new(alloc);
    for item in items {
        take_item(alloc, choice.subject, lists, &mut cut, &mut rules, item)?;
        if let Some(place) = one_too_many(&rules) {
            return Err(ImportFailure::At(ImportFault::TooManyRules { place }));
        }
    }
    Ok((cut, rules))
}
