//! Notes on an import of all profiles of a text.
ghost use Rattle.std.specs.Prelude.{IfErr, IfOk, Ok};
ghost use Rattle.fault_notes.specs.AllImportNotes.{AreAllImportNotes};
ghost use Rattle.import_profile.specs.AllImports.{IsFaultless, TextValue};
ghost use Rattle.fault_notes.specs.inner.AllImports.{IsFirstOfAll};

use crate::import::fault_notes;
use import_profile::{FlattenedText, ImportFailure, ImportOptions};
use names::NoMemory;
use std::alloc::Global;

/// What is said about a flattened text that `import --all` refuses: a sentence about its first fault, and where that is. Nothing
/// about a text of which each profile is imported.
pub fn import_all_notes(
    alloc: Global,
    options: ImportOptions<'_>,
    text: &[u8],
) -> Result<Vec<u8>, NoMemory>
    ensures { IfOk result (λ notes. AreAllImportNotes options.entry text.now notes.items) }
{
    match import_all(alloc, options, text) {
        Ok(()) => Ok(Vec::new(alloc)),
        Err(ImportFailure::NoMemory) => Err(NoMemory),
        Err(ImportFailure::At(fault)) => fault_notes(alloc, options, text, &fault),
    }
}

/// Imports each profile of a text, up to the first fault.
fn import_all<'t>(
    alloc: Global,
    options: ImportOptions<'t>,
    text: &'t [u8],
) -> Result<(), ImportFailure<'t>>
    ensures { IsFirstOfAll options.entry text.now result }
{
    let read = FlattenedText::read(alloc, options, text)?;
    import_each(alloc, options, text, &read)
}

/// Imports each profile of a text that has no fault itself.
fn import_each<'t>(
    alloc: Global,
    options: ImportOptions<'t>,
    text: &'t [u8],
    read: &FlattenedText<'t>,
) -> Result<(), ImportFailure<'t>>
    requires { IsFaultless options text.now read.now }
    ensures { IsFirstOfAll options.entry text.now result }
{
    for number in 0..read.profile_count() {
        read.import(alloc, options, number)?;
    }
    Ok(())
}
