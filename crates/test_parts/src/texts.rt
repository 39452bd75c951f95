//! Paths, permissions and profiles, as tests write them.
use names::{Path, Perms};
use std::alloc::{AllocError, Global};
use std::test::Fail;

/// The path of a text.
pub fn path(text: &[u8]) -> Result<Path<'_>, Fail> {
    Ok(Path::check(text).ok().ok_or("a path")?)
}

/// The permissions of letters.
pub fn perms(letters: &[u8]) -> Result<Perms, Fail> {
    Ok(Perms::from_letters(letters).ok_or("letters")?)
}

/// The set of the permissions that stand for the ones in a number's binary digits.
pub fn perms_of(number: u8) -> Perms {
    Perms::passing(|permission| (number >> permission.index()) % 2 == 1)
}

/// The text of a profile with these rules.
pub fn profile_text(alloc: Global, rules: &[u8]) -> Result<Vec<u8>, AllocError> {
    let mut text = Vec::from_slice(alloc, b"profile p {\n")?;
    text.extend_from_slice(rules)?;
    text.extend_from_slice(b"\n}\n")?;
    Ok(text)
}
