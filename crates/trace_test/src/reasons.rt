//! Why rules allow permissions to a name, or not, within one line.
ghost use Rattle.std.specs.Prelude.{◌≡◌, ◌++◌, ◌∷◌, ◌≤◌, IfOk, codes, decimal, filter, length, map, string_bytes};
ghost use Rattle.std.specs.List.{flat_map};
ghost use Rattle.names.specs.Permissions.{all_permissions, has, letter};
ghost use Rattle.rule_explain.specs.Reasons.{IsReason};
ghost use Rattle.rule_profile.specs.Profile.{profile_value, rule_value};
ghost use Rattle.trace_test.specs.Questions.{reason_part, reason_told, rule_told};
ghost use Rattle.trace_test.specs.inner.Reasons.{NamesRuleOf};

use names::{NoMemory, Permission, Perms};
use rule_explain::{Reason, reason_of};
use rule_profile::{Profile, Rule};
use rule_writer::write_rule;
use std::alloc::Global;

/// Adds the reason for each permission that is asked.
pub(crate) fn put_reasons(
    line: &mut Vec<u8>,
    alloc: Global,
    profile: &Profile,
    name: &[u8],
    ask: Perms,
) -> Result<(), NoMemory>
    ensures { IfOk result (λ _. line.new.items ≡ line.old.items
        ++ flat_map (reason_part (profile_value profile.now).rules name.now) (filter (has ask) all_permissions)) }
{
    for permission in Permission::ALL {
        if ask.contains(permission) {
            put_part(line, alloc, profile, name, permission)?;
        }
    }
    Ok(())
}

/// Adds a permission and its reason.
fn put_part(
    line: &mut Vec<u8>,
    alloc: Global,
    profile: &Profile,
    name: &[u8],
    permission: Permission,
) -> Result<(), NoMemory>
    ensures { IfOk result (λ _. line.new.items ≡ line.old.items
        ++ reason_part (profile_value profile.now).rules name.now permission) }
{
    let reason = reason_of(profile, name, permission);
    put(line, b"; ")?;
    put(line, &[permission.letter()])?;
    put(line, b": ")?;
    put_reason(line, alloc, profile, reason)
}

/// Adds a reason.
fn put_reason(
    line: &mut Vec<u8>,
    alloc: Global,
    profile: &Profile,
    reason: Reason,
) -> Result<(), NoMemory>
    requires { NamesRuleOf reason (length (profile_value profile.now).rules) }
    ensures { IfOk result (λ _. line.new.items ≡ line.old.items ++ reason_told (profile_value profile.now).rules reason) }
{
    match reason {
        Reason::Allowed { rule } => {
            put(line, b"allowed by ")?;
            put_rule(line, alloc, profile.rules(), rule)
        }
        Reason::Denied { rule } => {
            put(line, b"denied by ")?;
            put_rule(line, alloc, profile.rules(), rule)
        }
        Reason::NoRule => put(line, b"no rule"),
    }
}

/// Adds a rule by its number and its text.
fn put_rule(line: &mut Vec<u8>, alloc: Global, rules: &[Rule], number: u16) -> Result<(), NoMemory>
    requires some { 1 ≤ number }
    requires most { number ≤ length rules.now }
    ensures { IfOk result (λ _. line.new.items ≡ line.old.items ++ rule_told (map rule_value rules.now) number) }
{
    let rule = &rules[usize::from(number) - 1];
    let front = rule_front(alloc, number)?;
    put(line, front.as_bytes())?;
    put(line, &write_rule(alloc, rule)?)
}

/// What comes before a rule's text.
fn rule_front(alloc: Global, number: u16) -> Result<String, NoMemory>
    ensures { IfOk result (λ front. string_bytes front ≡ codes "rule " ++ (decimal number ++ codes ": ")) }
{
    match format!(in alloc; "rule {number}: ") {
        Ok(front) => Ok(front),
        Err(_) => Err(NoMemory),
    }
}

/// Adds these bytes.
fn put(line: &mut Vec<u8>, bytes: &[u8]) -> Result<(), NoMemory>
    ensures { IfOk result (λ _. line.new.items ≡ line.old.items ++ bytes.now) }
{
    match line.extend_from_slice(bytes) {
        Ok(()) => Ok(()),
        Err(_) => Err(NoMemory),
    }
}
