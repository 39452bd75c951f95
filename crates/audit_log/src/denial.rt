//! Denials of files.
ghost use Rattle.std.specs.Prelude.{◌≡◌, ◌++◌, IfOk, option_map};
ghost use Rattle.std.specs.List.{list_all};
ghost use Rattle.audit_log.specs.Denials.{denial, denial_of, denial_value, denied_mask, full_name, is_by_owner, is_denial};
ghost use Rattle.audit_log.specs.Denials.{is_file_mask, is_mask_letter, profile_of};

use crate::digits::copied;
use crate::fields::{given_text, text_of, word_of};
use names::NoMemory;
use std::alloc::{AllocError, Global};

/// A denial of a file, as a line reports it: an access that was denied, or that would have been in enforce mode.
#[derive(Debug, PartialEq, Eq, PartialOrd, Ord, Drop)]
pub struct Denial {
    /// The full name of the profile: `:NAMESPACE://PROFILE` outside of the root namespace.
    pub profile: Vec<u8>,
    /// The name of the file.
    pub name: Vec<u8>,
    /// What was denied: letters among `rwalkmcdx`, at least one.
    pub mask: Vec<u8>,
    /// Whether the subject is known to own the file.
    pub by_owner: bool,
    /// Why the kernel refused it, if not by the rules alone.
    pub info: Option<Vec<u8>>,
}

impl Denial {
    /// The same denial once more.
    pub fn copied(&self, alloc: Global) -> Result<Denial, AllocError>
        ensures { IfOk result (λ copy. denial_value copy ≡ denial_value self.now) }
    {
        Ok(Denial {
            profile: Vec::from_slice(alloc, &self.profile)?,
            name: Vec::from_slice(alloc, &self.name)?,
            mask: Vec::from_slice(alloc, &self.mask)?,
            by_owner: self.by_owner,
            info: text_copied(alloc, &self.info)?,
        })
    }
}

/// The same text once more, if there is one.
fn text_copied(alloc: Global, text: &Option<Vec<u8>>) -> Result<Option<Vec<u8>>, AllocError>
    ensures { IfOk result (λ copy. option_map (λ t. t.items) copy ≡ option_map (λ t. t.items) text.now) }
{
    match text {
        Some(text) => Ok(Some(Vec::from_slice(alloc, text)?)),
        None => Ok(None),
    }
}

/// Whether the line reports a denial, or what would have been one.
fn is_denial(line: &[u8]) -> bool
    ensures { result ≡ is_denial line.now }
{
    match word_of(line, b"apparmor=") {
        Some(kind) => {
            kind == b"DENIED".as_slice()
                || kind == b"KILLED".as_slice()
                || kind == b"ALLOWED".as_slice()
        }
        None => false,
    }
}

fn is_mask_letter(byte: u8) -> bool
    ensures { result ≡ is_mask_letter byte }
{
    matches!(
        byte,
        b'r' | b'w' | b'a' | b'l' | b'k' | b'm' | b'c' | b'd' | b'x'
    )
}

fn are_mask_letters(mask: &[u8]) -> bool
    ensures { result ≡ list_all is_mask_letter mask.now }
{
    mask.iter().all(|byte| is_mask_letter(*byte))
}

/// Whether a mask is of files.
fn is_file_mask(mask: &[u8]) -> bool
    ensures { result ≡ is_file_mask mask.now }
{
    if mask.is_empty() {
        return false;
    }
    are_mask_letters(mask)
}

/// What was denied, or else what was requested.
fn denied_mask(line: &[u8]) -> Option<&[u8]>
    ensures { option_map (λ mask. mask.now) result ≡ denied_mask line.now }
{
    match word_of(line, b"denied_mask=") {
        Some(mask) => Some(mask),
        None => word_of(line, b"requested_mask="),
    }
}

/// Whether the subject and the owner of the file are the same user.
fn is_by_owner(line: &[u8]) -> bool
    ensures { result ≡ is_by_owner line.now }
{
    match (word_of(line, b"fsuid="), word_of(line, b"ouid=")) {
        (Some(subject), Some(owner)) => subject == owner,
        _ => false,
    }
}

/// Adds these bytes.
fn put(name: &mut Vec<u8>, bytes: &[u8]) -> Result<(), NoMemory>
    ensures { IfOk result (λ _. name.new.items ≡ name.old.items ++ bytes.now) }
{
    match name.extend_from_slice(bytes) {
        Ok(()) => Ok(()),
        Err(_) => Err(NoMemory),
    }
}

/// The full name of a profile, by its namespace if that isn't the root one.
fn full_name(
    alloc: Global,
    namespace: Option<Vec<u8>>,
    profile: Vec<u8>,
) -> Result<Vec<u8>, NoMemory>
    ensures { IfOk result (λ name. name.items ≡ full_name (option_map (λ n. n.items) namespace) profile.items) }
{
    let Some(namespace) = namespace else {
        return Ok(profile);
    };
    let mut name = Vec::new(alloc);
    put(&mut name, b":")?;
    put(&mut name, &namespace)?;
    put(&mut name, b"://")?;
    put(&mut name, &profile)?;
    Ok(name)
}

/// The full name of the profile that a line names.
fn profile_of(alloc: Global, line: &[u8]) -> Result<Option<Vec<u8>>, NoMemory>
    ensures { IfOk result (λ name. option_map (λ n. n.items) name ≡ profile_of line.now) }
{
    let Some(profile) = text_of(alloc, line, b"profile=")? else {
        return Ok(None);
    };
    match given_text(alloc, line, b"namespace=")? {
        Some(namespace) => Ok(Some(full_name(alloc, namespace, profile)?)),
        None => Ok(None),
    }
}

/// What the line reports, given what was denied.
fn denial_of(alloc: Global, line: &[u8], mask: &[u8]) -> Result<Option<Denial>, NoMemory>
    ensures { IfOk result (λ d. option_map denial_value d ≡ denial_of mask.now line.now) }
{
    let Some(profile) = profile_of(alloc, line)? else {
        return Ok(None);
    };
    let Some(name) = text_of(alloc, line, b"name=")? else {
        return Ok(None);
    };
    let Some(info) = given_text(alloc, line, b"info=")? else {
        return Ok(None);
    };
    Ok(Some(Denial {
        profile,
        name,
        mask: copied(alloc, mask)?,
        by_owner: is_by_owner(line),
        info,
    }))
}

/// The denial of a file that a line of a log reports, if it reports one: as journalctl and dmesg print it, or as it is in
/// `audit.log`. Other denials, such as of a capability, have no name or another mask, and are none of a file.
///
/// The time grows with the line.
pub fn parse_line(alloc: Global, line: &[u8]) -> Result<Option<Denial>, NoMemory>
    ensures { IfOk result (λ d. option_map denial_value d ≡ denial line.now) }
{
    if !is_denial(line) {
        return Ok(None);
    }
    match denied_mask(line) {
        Some(mask) if is_file_mask(mask) => denial_of(alloc, line, mask),
        _ => Ok(None),
    }
}
