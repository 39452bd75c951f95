//! Imports of the profile of a text that is requested.
ghost use Rattle.std.specs.Prelude.{◌≡◌};
ghost use Rattle.import_scope.specs.Scopes.{ScopeState};
ghost use Rattle.import_profile.specs.Imports.{Imports, items_outcome};
ghost use Rattle.import_profile.specs.Told.{Tells};

use crate::choice::{chosen_number, which};
use crate::fault::ImportFailure;
use crate::flattened::FlattenedText;
use crate::import::Imported;
use crate::options::ImportOptions;
use std::alloc::Global;

/// Imports the requested profile of a text that was read.
fn import_requested<'t>(
    alloc: Global,
    options: ImportOptions<'_>,
    text: &FlattenedText<'_>,
) -> Result<Imported, ImportFailure<'t>>
    ensures { (s : ScopeState) → text.now.declared ≡ s.declared → text.now.profiles ≡ s.profiles →
        Tells (λ outcome. outcome ≡ items_outcome options.entry s text.now.items) result }
{
    match chosen_number(alloc, options.profile, text.profiles())? {
        Some(number) => text.import(alloc, options, number),
        None => Err(which(alloc, text.profiles())),
    }
}

/// Imports a profile of a flattened text, as `apparmor_parser --preprocess` prints it: its file rules restated for the chosen
/// subject, each with the place of what it comes from, and the spans of the text, each kept, blank or reported. A text is refused
/// for its first fault: of what its items say, each once it was read completely, or where reading stops; then for the requested
/// profile, for too many rules, and where something changes that may not.
///
/// The time grows with the text, and with the texts of its paths and the lists of its variables, which are limited together; for
/// the chosen profile with up to 16 times the texts of its paths. For a profile with too many rules, rules are made up to the first
/// that is one too many, with all paths of its origin rule.
pub fn import_profile<'t>(
    alloc: Global,
    options: ImportOptions<'t>,
    text: &'t [u8],
) -> Result<Imported, ImportFailure<'t>>
    ensures { Tells (Imports options.entry text.now) result }
{
    let read = FlattenedText::read(alloc, options, text)?;
    import_requested(alloc, options, &read)
}
