//! Notes on an import.
ghost use Rattle.std.specs.Prelude.{◌≡◌, List, Option, IfOk, string_bytes};
ghost use Rattle.apparmor_text.specs.Parts.{ItemValue};
ghost use Rattle.apparmor_text.specs.Texts.{ReadsItems};
ghost use Rattle.apparmor_words.specs.Steps.{Stop};
ghost use Rattle.fault_notes.specs.ImportNotes.{AreFaultNotes, IsImportNotes, IsSaid, plainly_said, worded_said};
ghost use Rattle.import_profile.specs.Told.{import_fault_value};

use crate::grammar::grammar_said;
use crate::sentence::{ended, sentence, word_said};
use crate::variable::declared_said;
use import_profile::{ImportFailure, ImportFault, ImportOptions, import_profile};
use names::NoMemory;
use rule_explain::place_lines;
use std::alloc::Global;

/// What is said about a flattened text that `import` refuses: a sentence about its first fault, and where that is. Nothing about a
/// text that is imported.
pub fn import_notes(
    alloc: Global,
    options: ImportOptions<'_>,
    text: &[u8],
) -> Result<Vec<u8>, NoMemory>
    ensures { IfOk result (λ notes. IsImportNotes options.entry text.now notes.items) }
{
    match import_profile(alloc, options, text) {
        Ok(_) => Ok(Vec::new(alloc)),
        Err(ImportFailure::NoMemory) => Err(NoMemory),
        Err(ImportFailure::At(fault)) => fault_notes(alloc, options, text, &fault),
    }
}

/// What is said about a fault.
pub(crate) fn fault_notes(
    alloc: Global,
    options: ImportOptions<'_>,
    text: &[u8],
    fault: &ImportFault<'_>,
) -> Result<Vec<u8>, NoMemory>
    ensures { (items : List ItemValue) (end : Option Stop) → ReadsItems text.now items end
        → IfOk result (λ notes. AreFaultNotes options.entry text.now items (import_fault_value fault.now) notes.items) }
{
    let said = import_said(alloc, options, text, fault)?;
    match fault.place() {
        Some(place) => {
            let lines = place_lines(alloc, 0, text, place, &said)?;
            ended(alloc, &lines)
        }
        None => ended(alloc, &said),
    }
}

/// A fault in words.
fn import_said(
    alloc: Global,
    options: ImportOptions<'_>,
    text: &[u8],
    fault: &ImportFault<'_>,
) -> Result<String, NoMemory>
    ensures { (items : List ItemValue) (end : Option Stop) → ReadsItems text.now items end
        → IfOk result (λ said. IsSaid options.entry text.now items (import_fault_value fault.now) (string_bytes said)) }
{
    match fault {
        ImportFault::Syntax { place } => {
            let said = grammar_said(alloc, text, *place)?;
            sentence(alloc, said)
        }
        ImportFault::Declared { place } => declared_said(alloc, options, text, *place),
        fault => worded_said(alloc, fault),
    }
}

/// A fault that has a word, or of which always the same is said, in words.
fn worded_said(alloc: Global, fault: &ImportFault<'_>) -> Result<String, NoMemory>
    ensures { IfOk result (λ said. string_bytes said ≡ worded_said (import_fault_value fault.now)) }
{
    match fault {
        ImportFault::LeftOut { word, .. } => word_said(alloc, "not supported: ", word, ""),
        ImportFault::Undefined { name, .. } => word_said(
            alloc,
            "the variable @{",
            name,
            "} isn't declared; --define NAME=VALUE gives a variable a value",
        ),
        ImportFault::Cycle { name, .. } => word_said(
            alloc,
            "the variable @{",
            name,
            "} needs itself",
        ),
        fault => sentence(alloc, plainly_said(fault)),
    }
}

/// A fault of which always the same is said, in words.
fn plainly_said(fault: &ImportFault<'_>) -> &'static str
    ensures { result.now ≡ plainly_said (import_fault_value fault.now) }
{
    match fault {
        ImportFault::Include { .. } => {
            "an include: flatten the text first: apparmor_parser -qQp FILE"
        }
        ImportFault::Permissions { .. } => {
            "these are no permissions, or none that are allowed in this rule"
        }
        ImportFault::Name { .. } => "the name of an imported profile can't be this one",
        ImportFault::TooManyRules { .. } => {
            "the profile has more than 1,024 rules: this is one too many"
        }
        ImportFault::TooLong { .. } => {
            "the path, or the list of a variable that it needs, is too long"
        }
        ImportFault::NotExact { .. } => {
            "something changes here for the chosen subject, which --strict doesn't allow"
        }
        ImportFault::TooMuch { .. } => {
            "there are more than 1,024 variables, or paths and lists of variables have more than 16 MB"
        }
        ImportFault::Which { .. } => {
            "the profiles there are, as listed: choose one by --profile NAME, or import each by --all"
        }
        _ => "",
    }
}
