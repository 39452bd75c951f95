//! The rules that allow what is asked.
ghost use Rattle.std.specs.Prelude.{◌≡◌, IfOk};
ghost use Rattle.rule_profile.specs.Profile.{profile_value};
ghost use Rattle.trace_audit.specs.Answers.{allowing, with_number, with_permission, with_reason};

use names::{NoMemory, Permission, Perms};
use rule_explain::{Reason, reason_of};
use rule_profile::Profile;
use std::alloc::Global;

/// Adds a number after the others, unless it is among them.
fn put_number(numbers: &mut Vec<u16>, number: u16) -> Result<(), NoMemory>
    ensures { IfOk result (λ _. numbers.new.items ≡ with_number numbers.old.items number) }
{
    if numbers.contains(&number) {
        return Ok(());
    }
    match numbers.push(number) {
        Ok(()) => Ok(()),
        Err(_) => Err(NoMemory),
    }
}

/// Adds the rule that allows a permission, if one does.
fn put_reason(numbers: &mut Vec<u16>, reason: Reason) -> Result<(), NoMemory>
    ensures { IfOk result (λ _. numbers.new.items ≡ with_reason numbers.old.items reason) }
{
    match reason {
        Reason::Allowed { rule } => put_number(numbers, rule),
        Reason::Denied { .. } | Reason::NoRule => Ok(()),
    }
}

/// Adds the rule that allows a permission, if it is asked and one does.
fn put_permission(
    numbers: &mut Vec<u16>,
    profile: &Profile,
    name: &[u8],
    ask: Perms,
    permission: Permission,
) -> Result<(), NoMemory>
    ensures { IfOk result (λ _. numbers.new.items
        ≡ with_permission (profile_value profile.now).rules name.now ask numbers.old.items permission) }
{
    if ask.contains(permission) {
        put_reason(numbers, reason_of(profile, name, permission))
    } else {
        Ok(())
    }
}

/// The numbers of the least rules that allow what is asked, in the order of the permissions that they allow first.
pub(crate) fn allowing(
    alloc: Global,
    profile: &Profile,
    name: &[u8],
    ask: Perms,
) -> Result<Vec<u16>, NoMemory>
    ensures { IfOk result (λ numbers. numbers.items ≡ allowing (profile_value profile.now).rules name.now ask) }
{
    let mut numbers = Vec::new(alloc);
    for permission in &Permission::ALL {
        put_permission(&mut numbers, profile, name, ask, *permission)?;
    }
    Ok(numbers)
}
