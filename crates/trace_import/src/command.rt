//! `import`: the requested profile, the account, and a map.
ghost use Rattle.std.specs.Prelude.{◌≡◌, Ok, IfOk};
ghost use Rattle.rule_profile.specs.Profile.{profile_value};
ghost use Rattle.rule_writer.specs.Canonical.{canonical};
ghost use Rattle.import_origins.specs.Origins.{map_lines};
ghost use Rattle.import_profile.specs.Told.{import_value};
ghost use Rattle.rule_profile.specs.RuleSpans.{profile_spans};
ghost use Rattle.trace_report.specs.Streams.{EndsInOne, streams};
ghost use Rattle.trace_import.specs.Accounts.{account_text};
ghost use Rattle.trace_import.specs.inner.WrittenMaps.{EndsWithMap};
ghost use Rattle.trace_import.specs.Import.{GetsMap, ImportEndsOver, ImportMapEndsOver, IsImportOutput, import_output};

use crate::account::{AccountChoice, account_text};
use crate::ending::{refuse_failed, write_both};
use apparmor_rules::Subject;
use import_origins::map_lines;
use import_profile::{ImportOptions, Imported, import_profile};
use names::NoMemory;
use rule_writer::write;
use std::alloc::Global;
use std::io::{Read, Write};
use trace_report::{Status, fail, read_all, write_through};

/// Reads a flattened profile text from `input`, writes the requested profile to `answers`, in canonical text, and then the account
/// to `faults`. If a text is refused, that is reported on `faults`, and nothing is written to `answers`.
pub fn import<R: Read, A: Write, F: Write>(
    alloc: Global,
    options: ImportOptions<'_>,
    account: AccountChoice,
    input: &mut R,
    answers: &mut A,
    faults: &mut F,
) -> Status
    ensures { ImportEndsOver account options.entry (R.remaining input.old)
        (streams (A.contents answers.old) (A.contents answers.new) (F.contents faults.old) (F.contents faults.new)) result }
{
    match read_all(alloc, input) {
        Ok(text) => import_text(alloc, options, account, &text, answers, faults),
        Err(fault) => fail(faults, fault, fault.status()),
    }
}

/// Imports a text that was read.
fn import_text<A: Write, F: Write>(
    alloc: Global,
    options: ImportOptions<'_>,
    account: AccountChoice,
    text: &[u8],
    answers: &mut A,
    faults: &mut F,
) -> Status
    ensures { EndsInOne
        (streams (A.contents answers.old) (A.contents answers.new) (F.contents faults.old) (F.contents faults.new))
        (IsImportOutput account options.entry text.now) result }
{
    match import_profile(alloc, options, text) {
        Ok(imported) => tell(
            alloc,
            account,
            options.subject,
            text,
            &imported,
            answers,
            faults,
        ),
        Err(failure) => refuse_failed(alloc, text, &failure, faults),
    }
}

/// Writes what was imported.
fn tell<A: Write, F: Write>(
    alloc: Global,
    account: AccountChoice,
    chosen: Subject,
    text: &[u8],
    imported: &Imported,
    answers: &mut A,
    faults: &mut F,
) -> Status
    ensures { EndsInOne
        (streams (A.contents answers.old) (A.contents answers.new) (F.contents faults.old) (F.contents faults.new))
        (λ output. output ≡ import_output account chosen text.now (Ok (import_value imported.now))) result }
{
    match texts_of(alloc, account, chosen, text, imported) {
        Ok((profile, told)) => write_both(answers, faults, &profile, &told),
        Err(NoMemory) => fail(faults, NoMemory, Status::NoMemory),
    }
}

/// The profile's canonical text, and the account.
fn texts_of(
    alloc: Global,
    account: AccountChoice,
    chosen: Subject,
    text: &[u8],
    imported: &Imported,
) -> Result<(Vec<u8>, Vec<u8>), NoMemory>
    ensures profile { IfOk result (λ texts. texts.0.items ≡ canonical (profile_value imported.now.profile)) }
    ensures account { IfOk result (λ texts. texts.1.items ≡ account_text account chosen text.now (import_value imported.now)) }
{
    let profile = write(alloc, &imported.profile)?;
    let told = account_text(alloc, account, chosen, text, imported)?;
    Ok((profile, told))
}

/// Does what [`import`] does, and writes a map of the profile's rules to `map`: a line for each with its number, the line and the
/// column of what it comes from, and the file that the text names last before that. Everything is computed first; then the map is
/// written, then the profile, and then the account. If the map can't be written, that ends it as an output that failed, and nothing
/// of the profile is written.
pub fn import_with_map<R: Read, M: Write, A: Write, F: Write>(
    alloc: Global,
    options: ImportOptions<'_>,
    account: AccountChoice,
    input: &mut R,
    map: &mut M,
    answers: &mut A,
    faults: &mut F,
) -> Status
    ensures { ImportMapEndsOver account options.entry (R.remaining input.old)
        (streams (A.contents answers.old) (A.contents answers.new) (F.contents faults.old) (F.contents faults.new))
        (M.contents map.old) (M.contents map.new) result }
{
    match read_all(alloc, input) {
        Ok(text) => map_text(alloc, options, account, &text, map, answers, faults),
        Err(fault) => fail(faults, fault, fault.status()),
    }
}

/// Imports a text that was read, with a map.
fn map_text<M: Write, A: Write, F: Write>(
    alloc: Global,
    options: ImportOptions<'_>,
    account: AccountChoice,
    text: &[u8],
    map: &mut M,
    answers: &mut A,
    faults: &mut F,
) -> Status
    ensures ends { EndsInOne
        (streams (A.contents answers.old) (A.contents answers.new) (F.contents faults.old) (F.contents faults.new))
        (IsImportOutput account options.entry text.now) result }
    ensures map { GetsMap options.entry text.now
        (streams (A.contents answers.old) (A.contents answers.new) (F.contents faults.old) (F.contents faults.new))
        (M.contents map.old) (M.contents map.new) result }
{
    match import_profile(alloc, options, text) {
        Ok(imported) => tell_map(
            alloc,
            account,
            options.subject,
            text,
            &imported,
            map,
            answers,
            faults,
        ),
        Err(failure) => refuse_failed(alloc, text, &failure, faults),
    }
}

/// Writes what was imported, and before it the map.
fn tell_map<M: Write, A: Write, F: Write>(
    alloc: Global,
    account: AccountChoice,
    chosen: Subject,
    text: &[u8],
    imported: &Imported,
    map: &mut M,
    answers: &mut A,
    faults: &mut F,
) -> Status
    ensures ends { EndsInOne
        (streams (A.contents answers.old) (A.contents answers.new) (F.contents faults.old) (F.contents faults.new))
        (λ output. output ≡ import_output account chosen text.now (Ok (import_value imported.now))) result }
    ensures map { EndsWithMap
        (streams (A.contents answers.old) (A.contents answers.new) (F.contents faults.old) (F.contents faults.new))
        (M.contents map.old) (M.contents map.new) (map_lines text.now (profile_spans imported.now.profile)) result }
{
    let Ok(lines) = map_lines(alloc, text, &imported.profile) else {
        return fail(faults, NoMemory, Status::NoMemory);
    };
    let Ok((profile, told)) = texts_of(alloc, account, chosen, text, imported) else {
        return fail(faults, NoMemory, Status::NoMemory);
    };
    match write_through(map, &lines) {
        Ok(()) => write_both(answers, faults, &profile, &told),
        Err(_) => fail(faults, "refused: output", Status::OutputFailed),
    }
}
