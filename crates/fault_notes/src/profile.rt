//! Notes on a profile's text.
ghost use Rattle.std.specs.Prelude.{◌≡◌, IfOk};
ghost use Rattle.fault_notes.specs.ProfileNotes.{profile_notes, refused_notes};

use crate::sentence::ended;
use names::NoMemory;
use rule_explain::fault_lines;
use rule_reader::{ReadFault, read};
use std::alloc::Global;

/// What is said of a table that would have too many states.
const TOO_MANY_STATES: &str =
    "too many states: names lead to more than 16,384 sets of live places of the rules";

/// What is said about a profile's text that `judge` or `compile` refuses: where the text has a fault, and which; and of a text
/// without one that a table for its rules would have too many states, which is all that `compile` refuses it for.
pub fn profile_notes(alloc: Global, text: &[u8]) -> Result<Vec<u8>, NoMemory>
    ensures { IfOk result (λ notes. notes.items ≡ profile_notes text.now) }
{
    match read(alloc, text) {
        Ok(_) => ended(alloc, TOO_MANY_STATES),
        Err(ReadFault::NoMemory) => Err(NoMemory),
        Err(fault) => refused_notes(alloc, text, fault),
    }
}

/// What is said about a text with this fault.
fn refused_notes(alloc: Global, text: &[u8], fault: ReadFault) -> Result<Vec<u8>, NoMemory>
    ensures { IfOk result (λ notes. notes.items ≡ refused_notes text.now fault) }
{
    let lines = fault_lines(alloc, text, fault)?;
    ended(alloc, &lines)
}
