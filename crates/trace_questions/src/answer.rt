//! Answers to questions.
ghost use Rattle.std.specs.Prelude.{◌≡◌, ◌++◌, IfOk, OnOk};
ghost use Rattle.trace_report.specs.Output.{line};

use names::NoMemory;
use std::alloc::Global;

/// The text of an answer, and whether it says that something was found.
#[derive(Drop)]
pub(crate) struct Answer {
    pub(crate) text: Vec<u8>,
    pub(crate) found: bool,
}

/// Appends bytes.
pub(crate) fn put(text: &mut Vec<u8>, bytes: &[u8]) -> Result<(), NoMemory>
    ensures { OnOk result (text.new.items ≡ text.old.items ++ bytes.now) }
{
    match text.extend_from_slice(bytes) {
        Ok(()) => Ok(()),
        Err(_) => Err(NoMemory),
    }
}

/// A line of text.
pub(crate) fn line_of(alloc: Global, text: &str) -> Result<Vec<u8>, NoMemory>
    ensures { IfOk result (λ bytes. bytes.items ≡ line text.now) }
{
    let mut bytes = Vec::new(alloc);
    put(&mut bytes, text.as_bytes())?;
    put(&mut bytes, b"\n")?;
    Ok(bytes)
}
