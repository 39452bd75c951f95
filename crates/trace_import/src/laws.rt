//! Laws of how an import ends. The functions do nothing: each stands for its contract.
ghost use Rattle.std.specs.Prelude.{◌≡◌, ℕ, List, Ok, Err};
ghost use Rattle.import_profile.specs.declared.options.ImportOptions.{ImportOptions};
ghost use Rattle.import_profile.specs.Faults.{ImportFault};
ghost use Rattle.import_profile.specs.Imports.{Imports, ImportValue, Outcome};
ghost use Rattle.trace_import.specs.Import.{IsImportOutput};
ghost use Rattle.trace_import.specs.declared.account.AccountChoice.{AccountChoice};
ghost use Rattle.trace_report.specs.Streams.{EndsInOne, Streams};
ghost use Rattle.trace_report.specs.declared.status.Status.TheVariants.{Done, Unmet, BadArguments, Refused};

/// An import that is refused is not done, one that has a profile isn't refused, and none has bad arguments or something to expect.
pub fn imports_end_as_their_outcome()
    ensures refused_as_done { (account : AccountChoice) (options : ImportOptions) (text : List ℕ) (streams : Streams)
        (fault : ImportFault) →
        ((outcome : Outcome) → Imports options text outcome → outcome ≡ Err fault) →
        EndsInOne streams (IsImportOutput account options text) Done → ⊥ }
    ensures profile_as_refused { (account : AccountChoice) (options : ImportOptions) (text : List ℕ) (streams : Streams)
        (value : ImportValue) →
        ((outcome : Outcome) → Imports options text outcome → outcome ≡ Ok value) →
        EndsInOne streams (IsImportOutput account options text) Refused → ⊥ }
    ensures bad_arguments { (account : AccountChoice) (options : ImportOptions) (text : List ℕ) (streams : Streams) →
        EndsInOne streams (IsImportOutput account options text) BadArguments → ⊥ }
    ensures unmet { (account : AccountChoice) (options : ImportOptions) (text : List ℕ) (streams : Streams) →
        EndsInOne streams (IsImportOutput account options text) Unmet → ⊥ }
{}
