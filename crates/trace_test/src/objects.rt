//! The lines of a test in JSON.
ghost use Rattle.std.specs.Prelude.{◌≡◌, codes, option_map, IfOk};
ghost use Rattle.answer_json.specs.Lines.{json_line};
ghost use Rattle.answer_json.specs.Values.{number_value};
ghost use Rattle.serde_json.specs.Data.{member, no_members, object};
ghost use Rattle.serde_json.specs.View.{view};
ghost use Rattle.trace_test.specs.TestOutput.{answer_object, count_object, failure_object, name_or_null};

use answer_json::{json_line, name_value};
use names::NoMemory;
use serde_json::{Value, json};
use std::alloc::{AllocError, Global};

/// The object of an expectation that doesn't hold, as a line.
pub(crate) fn failure_json(
    alloc: Global,
    number: u64,
    expected: Option<&[u8]>,
    got: Option<&[u8]>,
) -> Result<Vec<u8>, NoMemory>
    ensures { IfOk result (λ line. line.items ≡ json_line (failure_object (record {
      number = number;
      expected = option_map (λ text. text.now) expected.entry;
      got = option_map (λ answer. answer.now) got.entry;
    }))) }
{
    let expected = name_or_null(alloc, expected)?;
    let got = name_or_null(alloc, got)?;
    match failed(alloc, expected, got, number) {
        Ok(value) => json_line(alloc, &value),
        Err(_) => Err(NoMemory),
    }
}

/// The object of an answer, as a line.
pub(crate) fn answer_json(alloc: Global, number: u64, answer: &[u8]) -> Result<Vec<u8>, NoMemory>
    ensures { IfOk result (λ line. line.items ≡ json_line (answer_object number answer.now)) }
{
    let answer = name_value(alloc, answer)?;
    match answered(alloc, answer, number) {
        Ok(value) => json_line(alloc, &value),
        Err(_) => Err(NoMemory),
    }
}

/// The object of how many expectations hold, as a line.
#[tactic(auto, using(crate::proofs::NoFloats::no_float_in_count))]
pub(crate) fn count_json(alloc: Global, held: u64, total: u64) -> Result<Vec<u8>, NoMemory>
    ensures { IfOk result (λ line. line.items ≡ json_line (count_object held total)) }
{
    match counted(alloc, held, total) {
        Ok(value) => json_line(alloc, &value),
        Err(_) => Err(NoMemory),
    }
}

/// A text, or `null`.
fn name_or_null(alloc: Global, name: Option<&[u8]>) -> Result<Value, NoMemory>
    ensures { IfOk result (λ value. view value ≡ name_or_null (option_map (λ bytes. bytes.now) name.entry)) }
{
    match name {
        Some(bytes) => name_value(alloc, bytes),
        None => Ok(Value::Null),
    }
}

fn failed(alloc: Global, expected: Value, got: Value, number: u64) -> Result<Value, AllocError>
    ensures { IfOk result (λ value. view value ≡ object (member (codes "expected") (view expected)
        (member (codes "got") (view got) (member (codes "line") (number_value number) no_members)))) }
{
    json!(in alloc; {"expected": expected, "got": got, "line": number})
}

fn answered(alloc: Global, answer: Value, number: u64) -> Result<Value, AllocError>
    ensures { IfOk result (λ value. view value ≡ object (member (codes "answer") (view answer)
        (member (codes "line") (number_value number) no_members))) }
{
    json!(in alloc; {"answer": answer, "line": number})
}

fn counted(alloc: Global, held: u64, total: u64) -> Result<Value, AllocError>
    ensures { IfOk result (λ value. view value ≡ count_object held total) }
{
    json!(in alloc; {"expectations": total, "held": held})
}
