//! What rules decide, noted name by name.
ghost use Rattle.std.specs.Prelude.{◌≡◌, ◌<◌, IfOk, length, replicate};
ghost use Rattle.rule_influence.specs.inner.Deciders.{AreNoted, IsAdded, no_perms};

use crate::decider::decider;
use names::{NoMemory, Permission, Perms, Record, permissions_are_numbered};
use std::alloc::Global;

/// The entries of rules that decide nothing.
pub(crate) fn nothing_decided(alloc: Global, count: usize) -> Result<Vec<Perms>, NoMemory>
    ensures { IfOk result (λ decided. decided.items ≡ replicate count no_perms) }
{
    match Vec::from_elem(alloc, Perms::NONE, count) {
        Ok(decided) => Ok(decided),
        Err(_) => Err(NoMemory),
    }
}

/// Adds what the rules decide for the names with these least hits.
pub(crate) fn note(decided: &mut [Perms], hits: &Record, reversed: &Record)
    requires { length decided.old < 65536 }
    ensures { AreNoted hits.now reversed.now decided.old decided.new }
{
    permissions_are_numbered();
    for permission in &Permission::ALL {
        let number = decider(
            decided.len(),
            hits.of(*permission),
            reversed.of(*permission),
        );
        add(decided, number, *permission);
    }
}

// Adds the permission to the entry of the rule with this number, if there is one.
fn add(decided: &mut [Perms], number: usize, permission: Permission)
    ensures { IsAdded number permission decided.old decided.new }
{
    if number != 0 && number <= decided.len() {
        decided[number - 1] = decided[number - 1].with(permission);
    }
}
