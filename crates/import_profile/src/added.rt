//! The rules that AppArmor adds.
ghost use Rattle.std.specs.Prelude.{◌≡◌, ◌++◌, IfOk};
ghost use Rattle.import_profile.specs.AddedRules.{added_at, queries, change_of_profile, change_of_hat, added_rules};
ghost use Rattle.import_profile.specs.Restated.{restated_at, restated_rules};

use crate::placed::{PlacedRule, push_restated};
use crate::{imported_paths, imported_paths_can_be_read};
use apparmor_rules::{AppliesTo, RuleShape, Subject};
use names::{NoMemory, Permission, Perms, RuleKind};
use std::alloc::Global;

/// Adds what one of these rules is restated as.
fn push_added(
    alloc: Global,
    rules: &mut Vec<PlacedRule>,
    chosen: Subject,
    place: usize,
    perms: Perms,
    path: &[u8],
) -> Result<(), NoMemory>
    ensures { IfOk result (λ _. rules.new.items ≡ rules.old.items ++ restated_at chosen (added_at place perms path.now)) }
{
    imported_paths_can_be_read();
    let shape = RuleShape {
        kind: RuleKind::Allow,
        applies_to: AppliesTo::Owners,
        perms,
        has_target: false,
        is_read: true,
        has_priority: false,
    };
    push_restated(rules, place, chosen, shape, imported_paths(alloc, path)?)
}

/// Adds the rules by which a task queries the state of AppArmor.
fn push_queries(
    alloc: Global,
    rules: &mut Vec<PlacedRule>,
    chosen: Subject,
    place: usize,
) -> Result<(), NoMemory>
    ensures { IfOk result (λ _. rules.new.items ≡ rules.old.items ++ restated_rules chosen (queries place)) }
{
    push_added(
        alloc,
        rules,
        chosen,
        place,
        Perms::NONE.with(Permission::Read),
        b"/proc/*/attr/apparmor/",
    )?;
    push_added(
        alloc,
        rules,
        chosen,
        place,
        Perms::NONE.with(Permission::Read),
        b"/sys/module/apparmor/parameters/enabled",
    )
}

/// Adds the rule by which a task requests another profile.
fn push_change_of_profile(
    alloc: Global,
    rules: &mut Vec<PlacedRule>,
    chosen: Subject,
    place: usize,
) -> Result<(), NoMemory>
    ensures { IfOk result (λ _. rules.new.items ≡ rules.old.items ++ restated_at chosen (change_of_profile place)) }
{
    push_added(
        alloc,
        rules,
        chosen,
        place,
        Perms::NONE.with(Permission::Write),
        b"/proc/*/attr/{,apparmor/}{current,exec}",
    )
}

/// Adds the rule by which a task requests a hat.
fn push_change_of_hat(
    alloc: Global,
    rules: &mut Vec<PlacedRule>,
    chosen: Subject,
    place: usize,
) -> Result<(), NoMemory>
    ensures { IfOk result (λ _. rules.new.items ≡ rules.old.items ++ restated_at chosen (change_of_hat place)) }
{
    push_added(
        alloc,
        rules,
        chosen,
        place,
        Perms::NONE.with(Permission::Write),
        b"/proc/[0-9]*/attr/{,apparmor/}current",
    )
}

/// Adds what the added rules are restated as, by the places of the first `change_profile` and of the first hat or child.
pub(crate) fn push_added_rules(
    alloc: Global,
    rules: &mut Vec<PlacedRule>,
    chosen: Subject,
    change: Option<usize>,
    hat: Option<usize>,
) -> Result<(), NoMemory>
    ensures { IfOk result (λ _. rules.new.items ≡ rules.old.items ++ restated_rules chosen (added_rules change hat)) }
{
    match (change, hat) {
        (None, None) => Ok(()),
        (Some(change), None) => {
            push_queries(alloc, rules, chosen, change)?;
            push_change_of_profile(alloc, rules, chosen, change)
        }
        (None, Some(hat)) => {
            push_queries(alloc, rules, chosen, hat)?;
            push_change_of_hat(alloc, rules, chosen, hat)
        }
        (Some(change), Some(hat)) => {
            let first = if change <= hat { change } else { hat };
            push_queries(alloc, rules, chosen, first)?;
            push_change_of_profile(alloc, rules, chosen, change)?;
            push_change_of_hat(alloc, rules, chosen, hat)
        }
    }
}
