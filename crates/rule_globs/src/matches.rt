//! Whether the items of a path match a name as a whole.
ghost use Rattle.std.specs.Prelude.{◌≡◌, ◌≤◌, ◌<◌, ◌↔◌, ℕ, IsTrue, MatchOption, length, drop, get_or, false};
ghost use Rattle.rule_globs.specs.Glob.{Takes, places};
ghost use Rattle.rule_globs.specs.Limits.{most_places};
ghost use Rattle.rule_globs.specs.Meaning.{meaning_of};

use crate::block::{Block, is_written};
use crate::items::Item;
use crate::live::{Cursor, pass_items};
use crate::path::MOST_PLACES;

/// Whether the items match all the bytes. Most names differ from most paths in what is written at the front, which is compared
/// first.
pub(crate) fn take_all(items: &[Item], bytes: &[u8]) -> bool
    requires { places (meaning_of items.now) ≤ most_places }
    ensures { IsTrue result ↔ Takes (meaning_of items.now) bytes.now }
{
    match written_front(items, bytes) {
        Some(count) => take_rest(&items[count..], &bytes[count..]),
        None => false,
    }
}

// How many items at the front are bytes as they are written, with which the name begins; or nothing, if the next one is a byte
// that the name doesn't have there.
fn written_front(items: &[Item], bytes: &[u8]) -> Option<usize>
    ensures { MatchOption result (Takes (meaning_of items.now) bytes.now → ⊥)
        (λ count. (count ≤ length items.now) × (count ≤ length bytes.now)
        × (Takes (meaning_of items.now) bytes.now
        ↔ Takes (meaning_of (drop count items.now)) (drop count bytes.now))) }
{
    for (i, item) in items.iter().enumerate() {
        match item {
            Item::Byte(wanted) if i < bytes.len() => {
                if !is_written(*wanted, bytes[i]) {
                    return None;
                }
            }
            _ => return Some(i),
        }
    }
    Some(items.len())
}

// The same by live places, which a block of the bytes moves on at once.
fn take_rest(items: &[Item], bytes: &[u8]) -> bool
    requires { places (meaning_of items.now) ≤ most_places }
    ensures { IsTrue result ↔ Takes (meaning_of items.now) bytes.now }
{
    let mut live = [false; MOST_PLACES];
    // No item takes byte 0, so that a pass by it lights the places that are live before the first byte.
    let mut block = Block::new();
    block.push(0);
    let mut reached = 1;
    for byte in bytes {
        if block.is_full() {
            let end = pass_items(items, &block, Cursor { place: 0, reached }, &mut live);
            if !is_some_live(&live[..end.place]) {
                return false;
            }
            block = Block::new();
            reached = 0;
        }
        block.push(*byte);
    }
    let end = pass_items(items, &block, Cursor { place: 0, reached }, &mut live);
    block.last(end.reached)
}

// Whether a place is live.
fn is_some_live(live: &[bool]) -> bool
    ensures { result ≡ false → (p : ℕ) → p < length live.now → get_or live.now p false ≡ false }
{
    live.contains(&true)
}
