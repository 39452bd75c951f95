//! Texts in a row, eight bytes per cell.
ghost use Rattle.std.specs.Prelude.{◌≡◌, ◌<◌, ◌≤◌, ◌+◌, ◌^◌, ◌/◌, ℕ, List, OnOk, IfOk, IfErr, length, take, drop, slice_index};
ghost use Rattle.std.specs.Int.{byte_at};
ghost use Rattle.tree_row.specs.Slots.{text_at};
ghost use Rattle.tree_row.specs.Rows.{row_length};
ghost use Rattle.tree_row.specs.Worlds.{Fewer};
ghost use Rattle.tree_row.specs.Questions.{Tells};
ghost use Rattle.tree_row.specs.inner.Words.{IsStart, HasFourAt};

use crate::cells::Cells;
use crate::pack::packed_word;
use crate::slot::word_at;
use path_lookup::Torn;

/// Copies a text of `count` bytes, which begins at the cell at `base`, to the front of `room`. Each word is read once. What was in
/// `room` after them may be lost.
pub fn read_text<C: Cells>(
    cells: &mut C,
    base: usize,
    count: usize,
    room: &mut [u8],
) -> Result<(), Torn>
    requires room { count ≤ length room.old }
    requires within { base + (count + 7) / 8 ≤ row_length (C.capacity_of (C.kept cells.old)) }
    requires small { base + count < 2 ^ 33 }
    ensures kept { C.kept cells.new ≡ C.kept cells.old }
    ensures fewer { Fewer (C.may cells.old) (C.may cells.new) }
    ensures ok { OnOk result ((row : List ℕ) → C.may cells.new row → text_at row base count ≡ take count room.new) }
    ensures err { IfErr result (λ _. C.unknown cells.new) }
{
    for k in 0..count.div_ceil(8) {
        let word = word_at(cells, base + k)?;
        put_word(&mut room[8 * k..], word);
    }
    Ok(())
}

// Writes the bytes of a word, the lowest first, to the front of some room, as many as it has.
fn put_word(room: &mut [u8], word: u64)
    ensures long { length room.new ≡ length room.old }
    ensures start { IsStart word room.new }
    ensures rest { drop 8 room.new ≡ drop 8 room.old }
{
    let bytes = word.to_le_bytes();
    let count = room.len();
    if count >= 8 {
        room[..8].copy_from_slice(&bytes);
    } else {
        room.copy_from_slice(&bytes[..count]);
    }
}

/// Whether the text that begins at the cell at `base`, and is as long as `text`, equals `text`. Each word is read once, and none
/// past the first that differs.
pub(crate) fn has_text<C: Cells>(cells: &mut C, base: usize, text: &[u8]) -> Result<bool, Torn>
    requires within { base + (length text.now + 7) / 8 ≤ row_length (C.capacity_of (C.kept cells.old)) }
    requires small { base + length text.now < 2 ^ 33 }
    ensures kept { C.kept cells.new ≡ C.kept cells.old }
    ensures fewer { Fewer (C.may cells.old) (C.may cells.new) }
    ensures ok { IfOk result (λ same. (row : List ℕ) → C.may cells.new row → Tells same (text_at row base (length text.now) ≡ text.now)) }
    ensures err { IfErr result (λ _. C.unknown cells.new) }
{
    for k in 0..text.len().div_ceil(8) {
        let word = word_at(cells, base + k)?;
        if !is_start(word, &text[8 * k..]) {
            return Ok(false);
        }
    }
    Ok(true)
}

// Whether the bytes of a word, the lowest first, are the first of a text, as far as it goes. Fewer than eight are compared without
// a loop, since most names of files are that short: the pieces at the front and at the end may overlap.
fn is_start(word: u64, text: &[u8]) -> bool
    ensures { Tells result (IsStart word text.now) }
{
    let count = text.len();
    if count >= 8 {
        word == packed_word(text, 0)
    } else if count >= 4 {
        has_four_at(word, text, 0) && has_four_at(word, text, count - 4)
    } else if count >= 1 {
        has_byte_at(word, text, 0)
            && has_byte_at(word, text, count / 2)
            && has_byte_at(word, text, count - 1)
    } else {
        true
    }
}

// Whether the four bytes at an index of a text are those that a word has there.
fn has_four_at(word: u64, text: &[u8], i: usize) -> bool
    requires low { i ≤ 4 }
    requires within { i + 4 ≤ length text.now }
    ensures { Tells result (HasFourAt word text.now i) }
{
    (word >> (8 * i)) % 0x1_0000_0000
        == u64::from(u32::from_le_bytes([text[i], text[i + 1], text[i + 2], text[i + 3]]))
}

// Whether the byte at an index of a text is the one that a word has there.
fn has_byte_at(word: u64, text: &[u8], i: usize) -> bool
    requires low { i < 8 }
    requires within { i < length text.now }
    ensures { Tells result (byte_at i word ≡ slice_index text.now i) }
{
    (word >> (8 * i)) % 0x100 == u64::from(text[i])
}
