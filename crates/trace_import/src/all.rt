//! `import --all`: each profile of a text as a command of a script.
ghost use Rattle.std.specs.Prelude.{◌≡◌, ◌++◌, IfOk, Ok, codes};
ghost use Rattle.import_profile.specs.AllImports.{IsFaultless, TextValue};
ghost use Rattle.import_profile.specs.Told.{import_value};
ghost use Rattle.rule_profile.specs.Profile.{profile_value};
ghost use Rattle.rule_writer.specs.Canonical.{canonical};
ghost use Rattle.trace_report.specs.Streams.{EndsInOne, streams};
ghost use Rattle.trace_import.specs.ImportAll.{ImportAllEndsOver, IsAllOutput, headed, headed_account, policy_text};
ghost use Rattle.trace_import.specs.inner.AllTexts.{TellsAll};

use crate::account::{AccountChoice, account_text};
use crate::ending::{refuse_failed, write_both};
use crate::put::put;
use apparmor_rules::Subject;
use import_origins::push_shown;
use import_profile::{FlattenedText, ImportFailure, ImportOptions, Imported};
use names::NoMemory;
use rule_profile::Profile;
use rule_writer::write;
use std::alloc::Global;
use std::io::{Read, Write};
use trace_report::{Status, fail, read_all};

/// Reads a flattened profile text from `input` and writes each of its profiles to `answers`, children and hats too, in the order of
/// the text: as a command `policy` of a script, with the profile's canonical text. Then it writes their accounts to `faults`, each
/// that isn't empty after a line with its profile's name. If a text is refused, or one of its profiles, that is reported on
/// `faults`, and nothing is written to `answers`. The profile's name in `options` doesn't matter.
///
/// The time grows with the text times the number of its profiles.
pub fn import_all<R: Read, A: Write, F: Write>(
    alloc: Global,
    options: ImportOptions<'_>,
    account: AccountChoice,
    input: &mut R,
    answers: &mut A,
    faults: &mut F,
) -> Status
    ensures { ImportAllEndsOver account options.entry (R.remaining input.old)
        (streams (A.contents answers.old) (A.contents answers.new) (F.contents faults.old) (F.contents faults.new)) result }
{
    match read_all(alloc, input) {
        Ok(text) => all_of_text(alloc, options, account, &text, answers, faults),
        Err(fault) => fail(faults, fault, fault.status()),
    }
}

/// Imports all profiles of a text that was read.
fn all_of_text<A: Write, F: Write>(
    alloc: Global,
    options: ImportOptions<'_>,
    account: AccountChoice,
    text: &[u8],
    answers: &mut A,
    faults: &mut F,
) -> Status
    ensures { EndsInOne
        (streams (A.contents answers.old) (A.contents answers.new) (F.contents faults.old) (F.contents faults.new))
        (IsAllOutput account options.entry text.now) result }
{
    match texts_of_all(alloc, options, account, text) {
        Ok(texts) => write_both(answers, faults, &texts.policies, &texts.accounts),
        Err(failure) => refuse_failed(alloc, text, &failure, faults),
    }
}

/// What is written for the profiles so far.
#[derive(Drop)]
pub(crate) struct AllTexts {
    pub(crate) policies: Vec<u8>,
    pub(crate) accounts: Vec<u8>,
}

impl AllTexts {
    /// Adds what is written for one more profile.
    fn add(
        &mut self,
        alloc: Global,
        options: ImportOptions<'_>,
        account: AccountChoice,
        text: &[u8],
        imported: &Imported,
    ) -> Result<(), NoMemory>
        ensures policies { IfOk result (λ _. self.new.policies.items
            ≡ self.old.policies.items ++ policy_text (import_value imported.now)) }
        ensures accounts { IfOk result (λ _. self.new.accounts.items ≡ self.old.accounts.items
            ++ headed_account account options.entry.subject text.now (import_value imported.now)) }
    {
        put_policy(&mut self.policies, alloc, &imported.profile)?;
        put_account(
            &mut self.accounts,
            alloc,
            account,
            options.subject,
            text,
            imported,
        )
    }
}

/// What is written for each profile of a text.
fn texts_of_all<'t>(
    alloc: Global,
    options: ImportOptions<'t>,
    account: AccountChoice,
    text: &'t [u8],
) -> Result<AllTexts, ImportFailure<'t>>
    ensures { TellsAll account options.entry text.now result }
{
    let read = FlattenedText::read(alloc, options, text)?;
    texts_of_each(alloc, options, account, text, &read)
}

/// What is written for each profile of a text that has no fault.
fn texts_of_each<'t>(
    alloc: Global,
    options: ImportOptions<'t>,
    account: AccountChoice,
    text: &'t [u8],
    read: &FlattenedText<'t>,
) -> Result<AllTexts, ImportFailure<'t>>
    requires { IsFaultless options text.now read.now }
    ensures { TellsAll account options.entry text.now result }
{
    let mut texts = AllTexts {
        policies: Vec::new(alloc),
        accounts: Vec::new(alloc),
    };
    for number in 0..read.profile_count() {
        let imported = read.import(alloc, options, number)?;
        texts.add(alloc, options, account, text, &imported)?;
    }
    Ok(texts)
}

/// Adds a profile as a command of a script.
fn put_policy(lines: &mut Vec<u8>, alloc: Global, profile: &Profile) -> Result<(), NoMemory>
    ensures { IfOk result (λ _. lines.new.items ≡ lines.old.items
        ++ (codes "policy\n" ++ (canonical (profile_value profile.now) ++ codes ".\n"))) }
{
    put(lines, b"policy\n")?;
    put(lines, &write(alloc, profile)?)?;
    put(lines, b".\n")
}

/// Adds the account of a profile.
fn put_account(
    lines: &mut Vec<u8>,
    alloc: Global,
    account: AccountChoice,
    chosen: Subject,
    text: &[u8],
    imported: &Imported,
) -> Result<(), NoMemory>
    ensures { IfOk result (λ _. lines.new.items ≡ lines.old.items
        ++ headed_account account chosen text.now (import_value imported.now)) }
{
    let told = account_text(alloc, account, chosen, text, imported)?;
    put_headed(lines, imported.profile.name(), &told)
}

/// Adds an account, if it isn't empty, after a line with the profile's name.
fn put_headed(lines: &mut Vec<u8>, name: &[u8], account: &[u8]) -> Result<(), NoMemory>
    ensures { IfOk result (λ _. lines.new.items ≡ lines.old.items ++ headed name.now account.now) }
{
    if account.is_empty() {
        return Ok(());
    }
    put(lines, b"profile ")?;
    push_shown(lines, name)?;
    put(lines, b":\n")?;
    put(lines, account)
}
