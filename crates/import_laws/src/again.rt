//! What was imported, imported again.
ghost use Rattle.std.specs.Prelude.{◌≡◌, ◌⊎◌, ℕ, List, [], Ok, Option, Some, None, option_map};
ghost use Rattle.rule_globs.specs.Each.{Each};
ghost use Rattle.rule_writer.specs.Canonical.{canonical};
ghost use Rattle.import_profile.specs.declared.options.ImportOptions.{ImportOptions};
ghost use Rattle.import_profile.specs.Imports.{ImportValue, Imports};
ghost use Rattle.import_laws.specs.Untold.{IsUntold};

/// The canonical text of an imported profile is imported as that profile, with an empty account, for each subject and strictly
/// or not: with no values given in advance, and with no name requested or the profile's own.
pub fn imports_are_imported_as_themselves()
    ensures { (options again : ImportOptions) (text : List ℕ) (value : ImportValue) → Imports options text (Ok value) →
        again.defines.now ≡ [] →
        (option_map (λ name. name.now) again.profile ≡ None ⊎ option_map (λ name. name.now) again.profile ≡ Some value.profile.name) →
        (other : ImportValue) × Imports again (canonical value.profile) (Ok other) × (other.profile ≡ value.profile)
        × Each (λ span. IsUntold span.kind) other.spans }
{}
