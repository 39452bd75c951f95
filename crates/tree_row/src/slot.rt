//! The cells of a slot.
ghost use Rattle.std.specs.Prelude.{◌≡◌, ◌<◌, ◌+◌, ◌*◌, ◌^◌, IfOk, IfErr, slice_index};
ghost use Rattle.tree_row.specs.Rows.{row_length};
ghost use Rattle.tree_row.specs.Worlds.{Fewer, Reads};

use crate::cells::Cells;
use path_lookup::Torn;

/// The number of cells of a slot.
pub const SLOT_LENGTH: usize = 164;

/// The cell of a slot with its kind: [`FREE`], [`DIRECTORY`], [`FILE`] or [`LINK`].
pub const KIND: usize = 0;

/// The cell of a slot with the number of its node.
pub const NODE: usize = 1;

/// The cell of a slot with the slot of the directory that has its entry.
pub const PARENT: usize = 2;

/// The cell of a slot with the length of its component, and [`TEXT_FACTOR`] times that of its link's text.
pub const LENGTHS: usize = 3;

/// The first cell of a slot's component, which has eight bytes per cell.
pub const COMPONENT: usize = 4;

/// The first cell of the text of a slot's link, which has eight bytes per cell.
pub const TEXT: usize = 36;

/// The kind of a slot that holds no entry.
pub const FREE: u64 = 0;

/// The kind of a directory's slot.
pub const DIRECTORY: u64 = 1;

/// The kind of a file's slot.
pub const FILE: u64 = 2;

/// The kind of a symbolic link's slot.
pub const LINK: u64 = 3;

/// The factor of the length of a link's text in the cell of the lengths.
pub const TEXT_FACTOR: u64 = 65536;

/// The place of a cell of a slot.
pub fn cell_place<C: Cells>(cells: &C, slot: usize, index: usize) -> usize
    requires slot { slot < C.capacity_of (C.kept cells.now) + 1 }
    requires index { index < SLOT_LENGTH }
    ensures place { result ≡ SLOT_LENGTH * slot + index }
    ensures within { result < row_length (C.capacity_of (C.kept cells.now)) }
    ensures small { result < 2 ^ 32 }
{
    // No row has more slots, and so the product is small.
    let _most = cells.capacity();
    SLOT_LENGTH * slot + index
}

/// A word of a slot.
pub fn slot_word<C: Cells>(cells: &mut C, slot: usize, index: usize) -> Result<u64, Torn>
    requires slot { slot < C.capacity_of (C.kept cells.old) + 1 }
    requires index { index < SLOT_LENGTH }
    ensures kept { C.kept cells.new ≡ C.kept cells.old }
    ensures fewer { Fewer (C.may cells.old) (C.may cells.new) }
    ensures ok { IfOk result (λ n. Reads (C.may cells.new) (λ row. slice_index row (SLOT_LENGTH * slot + index)) n) }
    ensures err { IfErr result (λ _. C.unknown cells.new) }
{
    let place = cell_place(cells, slot, index);
    word_at(cells, place)
}

/// The word at a place.
pub(crate) fn word_at<C: Cells>(cells: &mut C, place: usize) -> Result<u64, Torn>
    requires { place < row_length (C.capacity_of (C.kept cells.old)) }
    ensures kept { C.kept cells.new ≡ C.kept cells.old }
    ensures fewer { Fewer (C.may cells.old) (C.may cells.new) }
    ensures ok { IfOk result (λ n. Reads (C.may cells.new) (λ row. slice_index row place) n) }
    ensures err { IfErr result (λ _. C.unknown cells.new) }
{
    match cells.word(place) {
        Some(word) => Ok(word),
        None => Err(Torn),
    }
}
