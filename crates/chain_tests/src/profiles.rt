//! Profiles with their automata and tables.
ghost use Rattle.std.specs.Prelude.{◌≤◌, IfOk};
ghost use Rattle.tables.specs.Bounds.{InBounds};
ghost use Rattle.tables.specs.Tables.{table_value};

use glob_automaton::{Dfa, compile};
use rule_text::read;
use std::alloc::Global;
use std::test::Fail;
use table_image::{RawTable, pack_chained};

/// A profile with this number of rules, 127 at most. After a slash and a byte from 128 on, each byte from 128 up to that one leads
/// to a state of its own: so the row of each of these states has one target more than that of the state before.
pub(crate) fn staircase(alloc: Global, rules: u8) -> Result<Vec<u8>, Fail> {
    let mut text = b"profile p {".to_vec(alloc)?;
    for rule in 0..rules {
        let byte = 128u8.saturating_add(rule);
        text.extend_from_slice(b" /[")?;
        text.push(byte)?;
        text.extend_from_slice(b"-\xff]")?;
        text.push(byte)?;
        text.extend_from_slice(b" r,")?;
    }
    text.extend_from_slice(b" }")?;
    Ok(text)
}

/// The automaton of a profile's text.
pub(crate) fn automaton_of(alloc: Global, text: &[u8]) -> Result<Dfa, Fail> {
    let profile = read(alloc, text)?;
    Ok(compile(alloc, &profile)?)
}

/// The tables of a profile's text, whose depths are at most this great.
pub(crate) fn chained_of(alloc: Global, text: &[u8], most_depth: u16) -> Result<RawTable, Fail>
    ensures bounds { IfOk result (λ table. InBounds (table_value table)) }
    ensures depth { IfOk result (λ table. table.depth_bound ≤ most_depth) }
{
    let dfa = automaton_of(alloc, text)?;
    Ok(pack_chained(alloc, &dfa, most_depth)?)
}
