//! Names as JSON values.
ghost use Rattle.std.specs.Prelude.{◌≡◌, false, map, IfOk};
ghost use Rattle.answer_json.specs.Values.{name_value, number_value};
ghost use Rattle.serde_json.specs.Data.{array};
ghost use Rattle.serde_json.specs.View.{items_of, view};
ghost use Rattle.serde_json.specs.Written.{has_float};

use names::NoMemory;
use serde_json::Value;
use std::alloc::{AllocError, Global};

/// A name, or another text, as a JSON value: a string if its bytes are UTF-8, otherwise an array of their numbers.
#[tactic(auto, using(crate::specs::laws::NoFloats::no_float_in_name))]
pub fn name_value(alloc: Global, name: &[u8]) -> Result<Value, NoMemory>
    ensures value { IfOk result (λ value. view value ≡ name_value name.now) }
    ensures integers { IfOk result (λ value. has_float (view value) ≡ false) }
{
    match text_or_numbers(alloc, name) {
        Ok(value) => Ok(value),
        Err(_) => Err(NoMemory),
    }
}

/// The string of the bytes, or their numbers.
fn text_or_numbers(alloc: Global, bytes: &[u8]) -> Result<Value, AllocError>
    ensures { IfOk result (λ value. view value ≡ name_value bytes.now) }
{
    match str::from_utf8(bytes) {
        Ok(text) => Value::try_from_str(alloc, text),
        Err(_) => byte_numbers(alloc, bytes),
    }
}

/// The numbers of bytes, as an array.
fn byte_numbers(alloc: Global, bytes: &[u8]) -> Result<Value, AllocError>
    ensures { IfOk result (λ value. view value ≡ array (items_of (map number_value bytes.now))) }
{
    let mut numbers = Vec::new(alloc);
    for byte in bytes {
        numbers.push(Value::from(*byte))?;
    }
    Ok(Value::Array(numbers))
}
