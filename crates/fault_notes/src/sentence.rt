//! Sentences, and lines that end.
ghost use Rattle.std.specs.Prelude.{◌≡◌, ◌++◌, IfOk, decimal, string_bytes};
ghost use Rattle.fault_notes.specs.Sentences.{ended};
ghost use Rattle.rule_explain.specs.FaultWords.{named};

use names::NoMemory;
use rule_explain::named;
use std::alloc::Global;

/// A sentence as text of its own.
pub(crate) fn sentence(alloc: Global, said: &str) -> Result<String, NoMemory>
    ensures { IfOk result (λ text. string_bytes text ≡ said.now) }
{
    match format!(in alloc; "{said}") {
        Ok(text) => Ok(text),
        Err(_) => Err(NoMemory),
    }
}

/// A sentence with a number in it.
pub(crate) fn numbered(
    alloc: Global,
    before: &str,
    number: u64,
    after: &str,
) -> Result<String, NoMemory>
    ensures { IfOk result (λ text. string_bytes text ≡ before.now ++ (decimal number ++ after.now)) }
{
    match format!(in alloc; "{before}{number}{after}") {
        Ok(text) => Ok(text),
        Err(_) => Err(NoMemory),
    }
}

/// A word between two texts, as it is shown.
pub(crate) fn word_said(
    alloc: Global,
    before: &str,
    word: &[u8],
    after: &str,
) -> Result<String, NoMemory>
    ensures { IfOk result (λ said. string_bytes said ≡ before.now ++ (named word.now ++ after.now)) }
{
    let name = named(alloc, word)?;
    match format!(in alloc; "{before}{name}{after}") {
        Ok(said) => Ok(said),
        Err(_) => Err(NoMemory),
    }
}

/// Lines with the end of the last one.
pub(crate) fn ended(alloc: Global, lines: &str) -> Result<Vec<u8>, NoMemory>
    ensures { IfOk result (λ bytes. bytes.items ≡ ended lines.now) }
{
    match format!(in alloc; "{lines}\n") {
        Ok(text) => Ok(text.into_bytes()),
        Err(_) => Err(NoMemory),
    }
}
