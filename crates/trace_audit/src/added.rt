//! The rule that would allow what is missing.
ghost use Rattle.std.specs.Prelude.{◌≡◌, ◌&&◌, IfOk, IsTrue, map, not, option_map, Some, None, if◌then◌else◌};
ghost use Rattle.std.specs.List.{list_any};
ghost use Rattle.names.specs.Permissions.{all_permissions, conflicts, has};
ghost use Rattle.rule_globs.specs.Tokens.{all_full, byte, tokens_of};
ghost use Rattle.rule_profile.specs.Profile.{rule_value};
ghost use Rattle.rule_profile.specs.Readable.{is_rule};
ghost use Rattle.trace_audit.specs.Answers.{addable, added_rule, is_addable, is_control, rule_of};

use crate::asked::asks_nothing;
use names::{NoMemory, Permission, Perms, RuleKind};
use rule_globs::Item;
use rule_making::path_of;
use rule_profile::Rule;
use rule_writer::write_rule;
use std::alloc::Global;

/// Whether a rule that allows these permissions has this letter: append only where write isn't among them.
fn is_addable(perms: Perms, permission: Permission) -> bool
    ensures { result ≡ is_addable perms permission }
{
    perms.contains(permission)
        && !(perms.conflict() && permission.letter() == Permission::Append.letter())
}

/// The letters of a rule that allows these permissions.
fn addable(perms: Perms) -> Perms
    ensures { result ≡ addable perms }
{
    Perms::passing(|permission| is_addable(perms, permission))
}

fn is_control(byte: u8) -> bool
    ensures { result ≡ is_control byte }
{
    byte < b' ' || byte == 127
}

/// Whether some byte of the name is a control byte.
fn has_control(name: &[u8]) -> bool
    ensures { result ≡ list_any is_control name.now }
{
    name.iter().any(|byte| is_control(*byte))
}

/// The items of the path that is exactly this name.
fn items_of(alloc: Global, name: &[u8]) -> Result<Vec<Item>, NoMemory>
    ensures tokens { IfOk result (λ items. tokens_of items.items ≡ map byte name.now) }
    ensures full { IfOk result (λ items. IsTrue (all_full items.items)) }
{
    let mut items = Vec::new(alloc);
    for byte in name {
        if items.push(Item::Byte(*byte)).is_err() {
            return Err(NoMemory);
        }
    }
    Ok(items)
}

/// Whether a rule may have these letters.
fn are_rule_letters(perms: Perms) -> bool
    ensures { result ≡ (list_any (has perms) all_permissions && not (conflicts perms)) }
{
    !asks_nothing(perms) && !perms.conflict()
}

/// The rule of exactly this name for these permissions, if it can be read.
fn rule_of(alloc: Global, name: &[u8], perms: Perms) -> Result<Option<Rule>, NoMemory>
    ensures { IfOk result (λ rule. option_map rule_value rule
        ≡ (if is_rule (rule_of name.now perms) then Some (rule_of name.now perms) else None)) }
{
    let perms = addable(perms);
    if !are_rule_letters(perms) {
        return Ok(None);
    }
    let items = items_of(alloc, name)?;
    match path_of(items) {
        Some(path) => Ok(Some(Rule::new(RuleKind::Allow, perms, path))),
        None => Ok(None),
    }
}

/// The text of the rule that allows these permissions to exactly this name, if it can be written on one line: the name has to begin
/// with a slash, to have at most 1,024 bytes, and no control byte.
pub(crate) fn added_rule(
    alloc: Global,
    name: &[u8],
    perms: Perms,
) -> Result<Option<Vec<u8>>, NoMemory>
    ensures { IfOk result (λ text. option_map (λ t. t.items) text ≡ added_rule name.now perms) }
{
    if has_control(name) {
        return Ok(None);
    }
    match rule_of(alloc, name, perms)? {
        Some(rule) => Ok(Some(write_rule(alloc, &rule)?)),
        None => Ok(None),
    }
}
