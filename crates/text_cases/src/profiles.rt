//! Texts of profiles, as they are read or refused.
use rule_text::{Profile, read};
use std::alloc::Global;
use std::io;
use std::io::Write;

/// Shows whether the text is a profile, or its fault.
pub(crate) fn show_profile<W: Write>(alloc: Global, text: &[u8], output: &mut W) -> io::Result<()> {
    match read(alloc, text) {
        Ok(_) => writeln!(output, "a profile"),
        Err(fault) => writeln!(output, "{fault}"),
    }
}

/// The profile that the text is. Where it is none the fault is written.
pub(crate) fn profile_of<W: Write>(
    alloc: Global,
    text: &[u8],
    output: &mut W,
) -> io::Result<Option<Profile>> {
    match read(alloc, text) {
        Ok(profile) => Ok(Some(profile)),
        Err(fault) => {
            writeln!(output, "{fault}")?;
            Ok(None)
        }
    }
}
