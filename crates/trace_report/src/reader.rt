//! What commands read: the permissions that a word asks for, and all that a stream has.
ghost use Rattle.std.specs.Prelude.{◌≡◌};
ghost use Rattle.trace_report.specs.ReadStreams.{IsAsked, IsTextRead, ask_of, asked_by};

use crate::fault::Fault;
use names::Perms;
use std::alloc::Global;
use std::io::Read;

/// The permissions that a word asks for: one letter or more.
pub fn asked_by(perms: &str) -> Option<Perms>
    ensures { result ≡ asked_by perms.now }
{
    if perms.is_empty() {
        return None;
    }
    Perms::from_letters(perms.as_bytes())
}

/// The permissions asked for a name, which begins with a slash; or the fault of the arguments.
pub fn ask_of(perms: &str, name: &str) -> Result<Perms, Fault>
    ensures { IsAsked (ask_of perms.now name.now) result }
{
    let ask = asked_by(perms).ok_or(Fault::Permissions)?;
    if name.starts_with('/') {
        Ok(ask)
    } else {
        Err(Fault::Name)
    }
}

/// All that is left to read.
pub fn read_all<R: Read>(alloc: Global, input: &mut R) -> Result<Vec<u8>, Fault>
    ensures { IsTextRead (R.remaining input.old) result }
{
    let mut text = Vec::new(alloc);
    input.read_to_end(&mut text)?;
    Ok(text)
}
