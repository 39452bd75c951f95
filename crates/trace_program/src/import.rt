//! `import` and `explain --flattened`: profiles of a flattened text, by the options of the command line.
ghost use Rattle.std.specs.Prelude.{◌≡◌, ℕ, List, IfOk, IsErr, map};
ghost use Rattle.std.specs.Io.KnownBytes.{Keeps};
ghost use Rattle.trace_arguments.specs.Values.{choice_value, define_value, import_value};
ghost use Rattle.trace_report.specs.ReadStreams.{ask_of};
ghost use Rattle.trace_program.specs.Import.{AsksFor, ExplainFlattenedEnds, ImportEnds, account_of, defined_pair, subject_of};
ghost use Rattle.trace_program.specs.Notes.{AreImportNotes, AreNotesOnOne};
ghost use Rattle.trace_report.specs.Streams.{IsTextOf, streams};

use apparmor_rules::Subject;
use fault_notes::{import_all_notes, import_notes};
use import_profile::ImportOptions;
use import_scope::Define;
use named_texts::{LateNewText, NamedTexts};
use names::NoMemory;
use std::alloc::{AllocError, Global};
use std::io::{Read, Write};
use trace_arguments::{Account, FlattenedQuestion, ImportChoice, OwnerRules};
use trace_import::{AccountChoice, import_all, import_with_map};
use trace_report::{Status, fail};

/// Whose verdicts the imported profile gives.
fn subject_of(owners: OwnerRules) -> Subject
    ensures { result ≡ subject_of owners }
{
    match owners {
        OwnerRules::Keep => Subject::Owner,
        OwnerRules::Drop => Subject::Other,
    }
}

/// What is reported of an import.
fn account_of(account: Account) -> AccountChoice
    ensures { result ≡ account_of account }
{
    match account {
        Account::Changes => AccountChoice::Changes,
        Account::All => AccountChoice::All,
        Account::Nothing => AccountChoice::Nothing,
    }
}

/// The values that are given beforehand.
fn defines_of<'a>(
    alloc: Global,
    asked: &[trace_arguments::Define<'a>],
) -> Result<Vec<Define<'a>>, AllocError>
    ensures { IfOk result (λ defines. map defined_pair defines.items ≡ map define_value asked.now) }
{
    let mut defines = Vec::new(alloc);
    for define in asked {
        defines.push(Define {
            name: define.variable.as_bytes(),
            value: define.value.as_bytes(),
        })?;
    }
    Ok(defines)
}

/// The options of the profile that is chosen, with these values given beforehand.
fn options_of<'a>(
    choice: &ImportChoice<'a>,
    defines: &'a [Define<'a>],
    strict: bool,
) -> ImportOptions<'a>
    requires { map defined_pair defines.now ≡ map define_value choice.now.defines.items }
    ensures { AsksFor result (choice_value choice.now) strict }
{
    ImportOptions {
        profile: choice.profile.map(|name| name.as_bytes()),
        subject: subject_of(choice.owners),
        defines,
        overrides: choice.overrides,
        strict,
    }
}

/// Reads a flattened text from `input`, and writes to `answers` the profile that is asked for, or all of them, and to `faults` the
/// account, or why the text is refused. A map is written to the text that is named, which is created when there is one.
pub(crate) fn import<T: NamedTexts, R: Read, A: Write, F: Write>(
    alloc: Global,
    texts: &T,
    asked: &trace_arguments::ImportOptions<'_>,
    input: &mut R,
    answers: &mut A,
    faults: &mut F,
) -> Status
    ensures { (text : List ℕ) × IsTextOf (R.remaining input.old) text × ImportEnds (import_value asked.now) text
        (streams (A.contents answers.old) (A.contents answers.new) (F.contents faults.old) (F.contents faults.new)) result }
{
    let Ok(defines) = defines_of(alloc, &asked.choice.defines) else {
        return fail(faults, NoMemory, Status::NoMemory);
    };
    let options = options_of(&asked.choice, &defines, asked.strict);
    let account = account_of(asked.account);
    if asked.all {
        return import_all(alloc, options, account, input, answers, faults);
    }
    match asked.map {
        Some(name) => {
            let mut map = LateNewText::of(texts, name);
            import_with_map(alloc, options, account, input, &mut map, answers, faults)
        }
        None => trace_import::import(alloc, options, account, input, answers, faults),
    }
}

/// Reads a flattened text from `input`, and writes to `answers` what the rules of the profile that is chosen say about a name, and
/// where they come from. The arguments are tested before anything is read.
pub(crate) fn explain_flattened<R: Read, A: Write, F: Write>(
    alloc: Global,
    asked: &FlattenedQuestion<'_>,
    input: &mut R,
    answers: &mut A,
    faults: &mut F,
) -> Status
    ensures output { (text : List ℕ) × IsTextOf (R.remaining input.old) text
        × ExplainFlattenedEnds asked.now.perms.now asked.now.name.now asked.now.format (choice_value asked.now.choice) text
        (streams (A.contents answers.old) (A.contents answers.new) (F.contents faults.old) (F.contents faults.new)) result }
    ensures unread { IsErr (ask_of asked.now.perms.now asked.now.name.now)
        → Keeps (R.remaining input.old) (R.remaining input.new) }
{
    let Ok(defines) = defines_of(alloc, &asked.choice.defines) else {
        return fail(faults, NoMemory, Status::NoMemory);
    };
    let options = options_of(&asked.choice, &defines, false);
    trace_import::explain_flattened(
        alloc,
        asked.format,
        options,
        asked.perms,
        asked.name,
        input,
        answers,
        faults,
    )
}

/// The notes on a text that an import refused.
pub(crate) fn notes_on_import(
    alloc: Global,
    asked: &trace_arguments::ImportOptions<'_>,
    text: &[u8],
) -> Result<Vec<u8>, NoMemory>
    ensures { IfOk result (λ notes. AreImportNotes (import_value asked.now) text.now notes.items) }
{
    let Ok(defines) = defines_of(alloc, &asked.choice.defines) else {
        return Err(NoMemory);
    };
    let options = options_of(&asked.choice, &defines, asked.strict);
    if asked.all {
        import_all_notes(alloc, options, text)
    } else {
        import_notes(alloc, options, text)
    }
}

/// The notes on a text of which no profile could be explained.
pub(crate) fn notes_on_flattened(
    alloc: Global,
    choice: &ImportChoice<'_>,
    text: &[u8],
) -> Result<Vec<u8>, NoMemory>
    ensures { IfOk result (λ notes. AreNotesOnOne (choice_value choice.now) text.now notes.items) }
{
    let Ok(defines) = defines_of(alloc, &choice.defines) else {
        return Err(NoMemory);
    };
    import_notes(alloc, options_of(choice, &defines, false), text)
}
