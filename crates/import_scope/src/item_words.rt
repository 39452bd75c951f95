//! What the parts of an item say.
ghost use Rattle.std.specs.Prelude.{◌≡◌, ◌≤◌, ◌+◌, ◌^◌, option_map, IfOk, IfSome, None, map};
ghost use Rattle.apparmor_rules.specs.RuleWords.{first_bytes, is_path};
ghost use Rattle.import_scope.specs.ItemWords.{is_variable, is_name_part, bytes_at, bytes_before, variable_name, assigned_name};
ghost use Rattle.import_scope.specs.ItemWords.{assigned_values, is_adding, own_name, before_name};

use apparmor_rules::content;
use apparmor_text::{Part, PartKind};
use std::alloc::{AllocError, Global};

/// The word that names a variable.
fn variable_bytes<'t>(parts: &[Part<'t>]) -> Option<&'t [u8]>
    ensures { option_map (λ bytes. bytes.now) result ≡ first_bytes is_variable parts.now }
{
    let part = parts
        .iter()
        .find(|part| matches!(part.kind(), PartKind::Variable))?;
    Some(part.bytes())
}

/// The word that names a profile.
fn name_bytes<'t>(parts: &[Part<'t>]) -> Option<&'t [u8]>
    ensures { option_map (λ bytes. bytes.now) result ≡ first_bytes is_name_part parts.now }
{
    let part = parts
        .iter()
        .find(|part| matches!(part.kind(), PartKind::Name))?;
    Some(part.bytes())
}

/// The word that is a rule's path.
pub(crate) fn path_bytes<'t>(parts: &[Part<'t>]) -> Option<&'t [u8]>
    ensures { option_map (λ bytes. bytes.now) result ≡ first_bytes is_path parts.now }
{
    let part = parts
        .iter()
        .find(|part| matches!(part.kind(), PartKind::Path))?;
    Some(part.bytes())
}

/// What is between `@{` and `}`.
fn variable_name(used: &[u8]) -> &[u8]
    ensures { result.now ≡ variable_name used.now }
{
    match used {
        [_, _, behind @ ..] => behind.split_at(used.len().saturating_sub(3)).0,
        _ => &[],
    }
}

/// The name of the variable that is assigned to.
pub(crate) fn assigned_name<'t>(parts: &[Part<'t>]) -> &'t [u8]
    ensures { result.now ≡ assigned_name parts.now }
{
    match variable_bytes(parts) {
        Some(bytes) => variable_name(bytes),
        None => &[],
    }
}

/// The values that are assigned, without their quotes.
pub(crate) fn assigned_values<'t>(
    alloc: Global,
    parts: &[Part<'t>],
) -> Result<Vec<&'t [u8]>, AllocError>
    ensures { IfOk result (λ values. map (λ value. value.now) values.items ≡ assigned_values parts.now) }
{
    let mut values = Vec::new(alloc);
    for part in parts {
        if matches!(part.kind(), PartKind::Value) {
            values.push(content(part.bytes()))?;
        }
    }
    Ok(values)
}

/// Whether values are added to a variable.
pub(crate) fn is_adding(parts: &[Part<'_>]) -> bool
    ensures { result ≡ is_adding parts.now }
{
    parts
        .iter()
        .any(|part| matches!(part.kind(), PartKind::Adds))
}

/// A profile's own name, without quotes.
pub(crate) fn own_name<'t>(parts: &[Part<'t>]) -> &'t [u8]
    ensures { result.now ≡ own_name parts.now }
{
    match name_bytes(parts) {
        Some(bytes) => content(bytes),
        None => &[],
    }
}

/// Where that name begins, in an item after `before` bytes, if that can be counted.
pub(crate) fn name_place(before: usize, parts: &[Part<'_>]) -> Option<usize>
    ensures some { IfSome result (λ place. place ≡ before + before_name parts.now) }
    ensures none { result ≡ None → 2 ^ 64 ≤ before + before_name parts.now }
{
    let word = name_part_place(before, parts)?;
    match name_bytes(parts) {
        Some([b'"', ..]) => word.checked_add(1),
        _ => Some(word),
    }
}

/// Where the word that names a profile begins.
fn name_part_place(before: usize, parts: &[Part<'_>]) -> Option<usize>
    ensures some { IfSome result (λ place. place ≡ before + bytes_before is_name_part parts.now) }
    ensures none { result ≡ None → 2 ^ 64 ≤ before + bytes_before is_name_part parts.now }
{
    let mut place = before;
    for part in parts {
        if matches!(part.kind(), PartKind::Name) {
            return Some(place);
        }
        place = place.checked_add(part.bytes().len())?;
    }
    Some(place)
}

/// Where a rule's path begins, in an item after `before` bytes, if that can be counted.
pub(crate) fn path_place(before: usize, parts: &[Part<'_>]) -> Option<usize>
    ensures some { IfSome result (λ place. place ≡ before + bytes_before is_path parts.now) }
    ensures none { result ≡ None → 2 ^ 64 ≤ before + bytes_before is_path parts.now }
{
    let mut place = before;
    for part in parts {
        if matches!(part.kind(), PartKind::Path) {
            return Some(place);
        }
        place = place.checked_add(part.bytes().len())?;
    }
    Some(place)
}
