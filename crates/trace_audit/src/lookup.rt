//! Which rules a profile's name leads to.
ghost use Rattle.std.specs.Prelude.{◌≡◌, ◌⊎◌, Err, IfErr, IfOk, map, option_map};
ghost use Rattle.import_profile.specs.Told.{import_fault_value};
ghost use Rattle.rule_profile.specs.Profile.{profile_value};
ghost use Rattle.rule_reader.specs.ReadText.{outcome_of};
ghost use Rattle.trace_audit.specs.Lookups.{Asks, IsFound, IsHeld, first_after, first_of_both, held_by, held_by_profile};
ghost use Rattle.trace_audit.specs.Lookups.{not_found, rules, subject_of};
ghost use Rattle.trace_audit.specs.inner.FoundValues.{HasNoRules, IsImported, found_value, held_value, refusal_value, text_value};

use apparmor_rules::Subject;
use import_profile::{ImportFailure, ImportFault, ImportOptions, import_profile};
use names::NoMemory;
use rule_profile::Profile;
use rule_reader::{ReadFault, read};
use std::alloc::Global;

/// A text that may have profiles, and the name of its file.
#[derive(Debug, Drop)]
pub(crate) struct ProfileText<'a> {
    pub name: &'a str,
    pub text: Vec<u8>,
}

/// A file that can't be imported.
#[derive(Clone, Copy, Debug)]
pub(crate) struct Refusal<'a> {
    pub file: &'a str,
    /// The number of the fault.
    pub number: u8,
}

/// What one text has under a name.
#[derive(Debug, Drop)]
pub(crate) enum Held {
    Rules(Profile),
    /// It can't be imported, for the fault with this number.
    Faulty(u8),
    /// No profile of this name, or several.
    Nothing,
}

/// What a name leads to.
#[derive(Debug, Drop)]
pub(crate) enum Found<'a> {
    Profile(Profile),
    /// No text has the profile, and this one can't be imported.
    Refused(Refusal<'a>),
    Absent,
}

fn subject_of(by_owner: bool) -> Subject
    ensures { result ≡ subject_of by_owner }
{
    if by_owner {
        Subject::Owner
    } else {
        Subject::Other
    }
}

/// What an import fault says of a text: it has no such profile, or it can't be imported.
fn held_by_fault(fault: &ImportFault<'_>) -> Held
    ensures { held_value result ≡ held_by (Err (import_fault_value fault.now)) }
{
    match fault {
        ImportFault::Which { .. } => Held::Nothing,
        fault => Held::Faulty(fault.number()),
    }
}

/// What is asked of an import.
fn options_of(name: &[u8], by_owner: bool) -> ImportOptions<'_>
    ensures { Asks name.now by_owner result }
{
    ImportOptions {
        profile: Some(name),
        subject: subject_of(by_owner),
        defines: &[],
        overrides: false,
        strict: false,
    }
}

/// What a flattened text has under a name, for a subject.
fn imported(alloc: Global, text: &[u8], name: &[u8], by_owner: bool) -> Result<Held, NoMemory>
    ensures { IfOk result (λ held. IsImported text.now name.now by_owner (held_value held)) }
{
    let options = options_of(name, by_owner);
    match import_profile(alloc, options, text) {
        Ok(imported) => Ok(Held::Rules(imported.profile)),
        Err(ImportFailure::At(fault)) => Ok(held_by_fault(&fault)),
        Err(ImportFailure::NoMemory) => Err(NoMemory),
    }
}

/// What a profile that was read is under a name.
fn held_by_profile(name: &[u8], profile: Profile) -> Held
    ensures { held_value result ≡ held_by_profile name.now (profile_value profile) }
{
    if profile.name() == name {
        Held::Rules(profile)
    } else {
        Held::Nothing
    }
}

/// What a text has under a name, for a subject, if reading it ends with this fault.
fn unread(
    alloc: Global,
    fault: ReadFault,
    text: &[u8],
    name: &[u8],
    by_owner: bool,
) -> Result<Held, NoMemory>
    ensures { (fault ≡ ReadFault.NoMemory) ⊎ (outcome_of text.now ≡ Err fault) →
        IfOk result (λ held. IsHeld text.now name.now by_owner (held_value held)) }
{
    match fault {
        ReadFault::NoMemory => Err(NoMemory),
        _ => imported(alloc, text, name, by_owner),
    }
}

/// What a text has under a name, for a subject.
fn held_by_text(alloc: Global, text: &[u8], name: &[u8], by_owner: bool) -> Result<Held, NoMemory>
    ensures { IfOk result (λ held. IsHeld text.now name.now by_owner (held_value held)) }
{
    match read(alloc, text) {
        Ok(profile) => Ok(held_by_profile(name, profile)),
        Err(fault) => unread(alloc, fault, text, name, by_owner),
    }
}

/// What it means that no text has the profile.
fn not_found<'a>(first: Option<Refusal<'a>>) -> Found<'a>
    ensures { found_value result ≡ not_found (option_map refusal_value first.entry) }
{
    match first {
        Some(refusal) => Found::Refused(refusal),
        None => Found::Absent,
    }
}

/// The first of two files that can't be imported.
fn first_of_both<'a>(first: Option<Refusal<'a>>, file: &'a str, number: u8) -> Option<Refusal<'a>>
    ensures { option_map refusal_value result ≡ first_of_both (option_map refusal_value first.entry)
        (record { file = file.now; number = number }) }
{
    match first {
        Some(refusal) => Some(refusal),
        None => Some(Refusal { file, number }),
    }
}

/// The profile that a text has, or else the first file that can't be imported.
fn profile_held<'a>(
    first: Option<Refusal<'a>>,
    file: &'a str,
    held: Held,
) -> Result<Profile, Option<Refusal<'a>>>
    ensures ok { IfOk result (λ profile. held_value held ≡ rules (profile_value profile).rules) }
    ensures passed { IfErr result (λ _. HasNoRules (held_value held)) }
    ensures err { IfErr result (λ other. option_map refusal_value other
        ≡ first_after file.now (option_map refusal_value first.entry) (held_value held)) }
{
    match held {
        Held::Rules(profile) => Ok(profile),
        Held::Faulty(number) => Err(first_of_both(first, file, number)),
        Held::Nothing => Err(first),
    }
}

/// What a name leads to in these texts, for a subject: the first that has the profile counts.
pub(crate) fn find<'a>(
    alloc: Global,
    texts: &[ProfileText<'a>],
    name: &[u8],
    by_owner: bool,
) -> Result<Found<'a>, NoMemory>
    ensures { IfOk result (λ found. IsFound (map text_value texts.now) name.now by_owner (found_value found)) }
{
    let mut first = None;
    for text in texts {
        let held = held_by_text(alloc, &text.text, name, by_owner)?;
        match profile_held(first, text.name, held) {
            Ok(profile) => return Ok(Found::Profile(profile)),
            Err(other) => first = other,
        }
    }
    Ok(not_found(first))
}
