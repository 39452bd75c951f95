//! Lines of an account.
ghost use Rattle.std.specs.Prelude.{◌≡◌, ◌++◌, IfOk, string_bytes};
ghost use Rattle.apparmor_rules.specs.Whats.{joined};
ghost use Rattle.trace_import.specs.AccountLines.{account_line, change_told, text_of_effect};

use crate::put::put;
use apparmor_rules::{Effect, What, shown_text};
use import_origins::push_place;
use names::NoMemory;
use rule_explain::Place;
use std::alloc::Global;

/// Adds the line that says, for some bytes at a place, what they are and what changes because of how they were treated. If
/// memory is refused, a part of the line may have been added.
pub fn push_account_line(
    lines: &mut Vec<u8>,
    alloc: Global,
    place: Place,
    whats: &[What],
    effect: Effect,
    bytes: &[u8],
) -> Result<(), NoMemory>
    ensures { IfOk result (λ _. lines.new.items ≡ lines.old.items ++ account_line place whats.now effect bytes.now) }
{
    push_place(lines, alloc, place)?;
    put(lines, b": ")?;
    put_whats(lines, whats)?;
    put(lines, b": ")?;
    put_change(lines, alloc, effect, bytes)
}

/// Adds the words of these, joined by `+`.
fn put_whats(lines: &mut Vec<u8>, whats: &[What]) -> Result<(), NoMemory>
    ensures { IfOk result (λ _. lines.new.items ≡ lines.old.items ++ joined whats.now) }
{
    for (i, what) in whats.iter().enumerate() {
        if i > 0 {
            put(lines, b"+")?;
        }
        put(lines, what.word())?;
    }
    Ok(())
}

/// Adds what changes, and for which bytes.
fn put_change(
    lines: &mut Vec<u8>,
    alloc: Global,
    effect: Effect,
    bytes: &[u8],
) -> Result<(), NoMemory>
    ensures { IfOk result (λ _. lines.new.items ≡ lines.old.items ++ change_told effect bytes.now) }
{
    put_effect(lines, alloc, effect)?;
    put(lines, b": ")?;
    put(lines, &shown_text(alloc, bytes)?)?;
    put(lines, b"\n")
}

/// Adds what changes, as it is printed.
fn put_effect(lines: &mut Vec<u8>, alloc: Global, effect: Effect) -> Result<(), NoMemory>
    ensures { IfOk result (λ _. lines.new.items ≡ lines.old.items ++ text_of_effect effect) }
{
    match format!(in alloc; "{effect}") {
        Ok(text) => put(lines, text.as_bytes()),
        Err(_) => Err(NoMemory),
    }
}
