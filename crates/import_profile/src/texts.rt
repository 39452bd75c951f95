//! Texts of paths with their variables in place.
ghost use Rattle.std.specs.Prelude.{◌≡◌, ◌≢◌, [], IfOk, option_map};
ghost use Rattle.import_profile.specs.Expanded.{expanded};
ghost use Rattle.import_profile.specs.inner.GatheredRules.{text_of_path};

use apparmor_variables::{ExpandFault, Lists};
use names::NoMemory;
use std::alloc::Global;

/// What the word `file` by itself stands for: the root, and each name below it.
const EVERY_FILE: &[u8] = b"/{**,}";

/// Returns the text of a path with its variables in place. If it has none, the profile's text was already refused.
fn expanded<'a>(alloc: Global, lists: &mut Lists<'a>, path: &'a [u8]) -> Result<Vec<u8>, NoMemory>
    ensures text { IfOk result (λ text. text.items ≡ expanded lists.old path.now) }
    ensures lists { lists.new ≡ lists.old }
{
    match lists.substitute(alloc, path) {
        Ok(text) => Ok(text),
        Err(fault) => nothing_for(alloc, fault),
    }
}

/// Returns an empty text, for a path that has none.
fn nothing_for(alloc: Global, fault: ExpandFault<'_>) -> Result<Vec<u8>, NoMemory>
    ensures { IfOk result (λ text. (text.items ≡ []) × (fault.entry ≢ ExpandFault.NoMemory)) }
{
    match fault {
        ExpandFault::NoMemory => Err(NoMemory),
        ExpandFault::Undefined { .. } | ExpandFault::Cycle { .. } | ExpandFault::TooLong => {
            Ok(Vec::new(alloc))
        }
    }
}

/// Returns the text of a rule's path, or [`EVERY_FILE`] if it has none.
pub(crate) fn text_of_path<'a>(
    alloc: Global,
    lists: &mut Lists<'a>,
    path: Option<&'a [u8]>,
) -> Result<Vec<u8>, NoMemory>
    ensures text { IfOk result (λ text. text.items ≡ text_of_path lists.old (option_map (λ text. text.now) path.entry)) }
    ensures lists { lists.new ≡ lists.old }
{
    match path {
        Some(text) => expanded(alloc, lists, text),
        None => match Vec::from_slice(alloc, EVERY_FILE) {
            Ok(text) => Ok(text),
            Err(_) => Err(NoMemory),
        },
    }
}
