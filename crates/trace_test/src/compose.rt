//! The lines of a test, each composed whole before it is written.
ghost use Rattle.std.specs.Prelude.{◌≡◌, ◌++◌, option_map, unwrap_or, IfOk, codes, decimal};
ghost use Rattle.trace_script.specs.Engine.{IsText};
ghost use Rattle.trace_report.specs.declared.format.Format.TheVariants as formats;
ghost use Rattle.trace_test.specs.TestOutput.{answer_text, count_text, failure_text, shown, shown_byte};
ghost use Rattle.trace_test.specs.inner.Sentences.{sentence_of};

use crate::objects::{answer_json, count_json, failure_json};
use names::NoMemory;
use std::alloc::{AllocError, Global};
use trace_report::Format;
use trace_script::Stop;

/// The line that reports an expectation that doesn't hold, or a policy that is refused where nothing is expected.
pub(crate) fn failure_line(
    alloc: Global,
    format: Format,
    number: u64,
    expected: Option<&[u8]>,
    got: Option<&[u8]>,
) -> Result<Vec<u8>, Stop>
    ensures { IsText (failure_text format (record {
      number = number;
      expected = option_map (λ text. text.now) expected.entry;
      got = option_map (λ answer. answer.now) got.entry;
    })) result }
{
    match format {
        Format::Text => failure_sentence(alloc, number, expected, answer_shown(got)),
        Format::Json => match failure_json(alloc, number, expected, got) {
            Ok(line) => Ok(line),
            Err(NoMemory) => Err(Stop::Memory),
        },
    }
}

/// The line that shows an answer, which is the line of `run`, or an object.
pub(crate) fn answer_line(
    alloc: Global,
    format: Format,
    number: u64,
    answer: &[u8],
) -> Result<Vec<u8>, Stop>
    ensures { IsText (answer_text format number answer.now) result }
{
    match format {
        Format::Text => plain_line(alloc, answer),
        Format::Json => match answer_json(alloc, number, answer) {
            Ok(line) => Ok(line),
            Err(NoMemory) => Err(Stop::Memory),
        },
    }
}

/// The line that says how many of the expectations hold.
pub(crate) fn count_line(
    alloc: Global,
    format: Format,
    held: u64,
    total: u64,
) -> Result<Vec<u8>, Stop>
    ensures { IsText (count_text format held total) result }
{
    match format {
        Format::Text => count_sentence(alloc, held, total),
        Format::Json => match count_json(alloc, held, total) {
            Ok(line) => Ok(line),
            Err(NoMemory) => Err(Stop::Memory),
        },
    }
}

/// An answer, or `nothing`.
fn answer_shown(answer: Option<&[u8]>) -> &[u8]
    ensures { result.now ≡ unwrap_or (option_map (λ bytes. bytes.now) answer.entry) (codes "nothing") }
{
    match answer {
        Some(bytes) => bytes,
        None => b"nothing",
    }
}

/// `LINE: expected TEXT, got ANSWER`, or `LINE: ANSWER` where nothing is expected, as a line.
fn failure_sentence(
    alloc: Global,
    number: u64,
    expected: Option<&[u8]>,
    got: &[u8],
) -> Result<Vec<u8>, Stop>
    ensures { IsText (decimal number ++ (codes ": " ++ sentence_of (option_map (λ text. text.now) expected.entry) got.now)) result }
{
    let mut line = format!(in alloc; "{number}: ")?.into_bytes();
    if let Some(text) = expected {
        put_expected(alloc, &mut line, text)?;
    }
    line.extend_from_slice(&shown(alloc, got)?)?;
    line.push(b'\n')?;
    Ok(line)
}

/// Adds `expected TEXT, got `.
fn put_expected(alloc: Global, line: &mut Vec<u8>, text: &[u8]) -> Result<(), AllocError>
    ensures { IfOk result (λ _. line.new.items ≡ line.old.items ++ (codes "expected " ++ (shown text.now ++ codes ", got "))) }
{
    line.extend_from_slice(b"expected ")?;
    line.extend_from_slice(&shown(alloc, text)?)?;
    line.extend_from_slice(b", got ")?;
    Ok(())
}

/// A text as a line.
fn plain_line(alloc: Global, text: &[u8]) -> Result<Vec<u8>, Stop>
    ensures { IsText text.now result }
{
    let mut line = Vec::from_slice(alloc, text)?;
    line.push(b'\n')?;
    Ok(line)
}

/// `K of N expectations hold`, as a line.
fn count_sentence(alloc: Global, held: u64, total: u64) -> Result<Vec<u8>, Stop>
    ensures { IsText (count_text formats.Text held total) result }
{
    let line = format!(in alloc; "{held} of {total} expectations hold\n")?;
    Ok(line.into_bytes())
}

/// The bytes, with a question mark for each control byte.
fn shown(alloc: Global, bytes: &[u8]) -> Result<Vec<u8>, AllocError>
    ensures { IfOk result (λ text. text.items ≡ shown bytes.now) }
{
    bytes.iter().map(|b| shown_byte(*b)).collect(alloc)
}

/// A byte, or a question mark for a control byte.
fn shown_byte(byte: u8) -> u8
    ensures { result ≡ shown_byte byte }
{
    if byte.is_ascii_control() { b'?' } else { byte }
}
