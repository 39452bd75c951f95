//! The requested profile of a text.
ghost use Rattle.std.specs.Prelude.{◌≡◌, IfOk, map, option_map, bytes_eq};
ghost use Rattle.import_profile.specs.Faults.{which};
ghost use Rattle.import_profile.specs.Imports.{fits, fitting, chosen_number};
ghost use Rattle.import_profile.specs.Told.{Fails};

use crate::fault::{ImportFailure, ImportFault};
use import_scope::ProfileHead;
use names::NoMemory;
use std::alloc::{AllocError, Global};

/// Whether the profile matches the request.
fn fits(asked: Option<&[u8]>, head: &ProfileHead) -> bool
    ensures { result ≡ fits (option_map (λ name. name.now) asked.entry) head.now }
{
    match asked {
        Some(name) => head.name() == name,
        None => true,
    }
}

/// Returns the numbers of the profiles that match the request.
fn fitting(
    alloc: Global,
    asked: Option<&[u8]>,
    heads: &[ProfileHead],
) -> Result<Vec<usize>, AllocError>
    ensures { IfOk result (λ numbers. numbers.items ≡ fitting (option_map (λ name. name.now) asked.entry) 0 heads.now) }
{
    let mut numbers = Vec::new(alloc);
    let mut number = 0;
    for head in heads {
        if fits(asked, head) {
            numbers.push(number)?;
        }
        number += 1;
    }
    Ok(numbers)
}

/// Returns the number of the requested profile, if exactly one matches.
pub(crate) fn chosen_number(
    alloc: Global,
    asked: Option<&[u8]>,
    heads: &[ProfileHead],
) -> Result<Option<usize>, NoMemory>
    ensures { IfOk result (λ number. number ≡ chosen_number (option_map (λ name. name.now) asked.entry) heads.now) }
{
    match fitting(alloc, asked, heads) {
        Ok(numbers) => match numbers.as_slice() {
            [number] => Ok(Some(*number)),
            _ => Ok(None),
        },
        Err(_) => Err(NoMemory),
    }
}

/// Returns the full names of all profiles.
fn names_of(alloc: Global, heads: &[ProfileHead]) -> Result<Vec<Vec<u8>>, AllocError>
    ensures { IfOk result (λ names. map (λ name. name.items) names.items ≡ map (λ head. head.name) heads.now) }
{
    let mut names = Vec::new(alloc);
    for head in heads {
        names.push(Vec::from_slice(alloc, head.name())?)?;
    }
    Ok(names)
}

/// Returns the fault that the request doesn't match exactly one profile.
pub(crate) fn which<'t>(alloc: Global, heads: &[ProfileHead]) -> ImportFailure<'t>
    ensures { Fails (λ fault. fault ≡ which (map (λ head. head.name) heads.now)) result }
{
    match names_of(alloc, heads) {
        Ok(names) => ImportFailure::At(ImportFault::Which { names }),
        Err(_) => ImportFailure::NoMemory,
    }
}
