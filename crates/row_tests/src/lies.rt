//! Cells that sometimes return what no row has: whatever they return, walking and naming terminate.
use crate::rows::row_of;
use crate::torn::SMALL;
use directory_tree::Last;
use names::Errno;
use path_lookup::{Scratch, WalkFault};
use std::alloc::Global;
use std::test::Fail;
use test_parts::path;
use tree_row::{Cells, KnownRow, Reached, RowEntry, RowLook, reach};

/// The cells of a row, one of which returns another word after `honest_reads` reads.
#[derive(Drop)]
pub(crate) struct LyingCells {
    pub row: KnownRow,
    pub place: usize,
    pub word: u64,
    pub honest_reads: u64,
}

impl Cells for LyingCells {
    ghost use Rattle.std.specs.Prelude.{ℕ, List};

    ghost Kept = { ℕ };

    ghost kept = { λ c. c.row.0 };

    ghost capacity_of = { λ k. k };

    // No row may be the one that is read.
    ghost may = { λ _ _. ⊥ };

    ghost whole = { λ _ _. ⊥ };

    ghost unknown = { λ _. ⊥ };

    ghost whole_may = { λ c row none. absurd none };

    fn capacity(&self) -> usize {
        self.row.capacity()
    }

    fn word(&mut self, place: usize) -> Option<u64> {
        if place == self.place {
            if self.honest_reads == 0 {
                return Some(self.word);
            }
            self.honest_reads -= 1;
        }
        Some(self.row.cell(place))
    }
}

/// Where the path leads, and the look's row.
pub(crate) fn reach_lying(
    cells: LyingCells,
    text: &[u8],
) -> Result<(KnownRow, Result<Reached<RowEntry>, WalkFault>), Fail> {
    let mut look = RowLook::new(cells);
    let mut room = [0; 4096];
    let end = reach(
        &mut look,
        &path(text)?,
        Last::Follow,
        &mut Scratch::new(),
        &mut room,
    );
    Ok((look.into_cells().row, end))
}

// Everything terminates, whichever word changes from the first, the second or the third read on.
fn ends_with_one_lie(alloc: Global) -> Result<(), Fail> {
    let mut row = row_of(alloc, 3, &SMALL)?;
    for place in 0..row.length() {
        for word in [0, 1, 3, 0xffff_ffff_ffff_ffff] {
            for honest_reads in 0..3 {
                let cells = LyingCells {
                    row,
                    place,
                    word,
                    honest_reads,
                };
                row = reach_lying(cells, b"/l")?.0;
            }
        }
    }
    Ok(())
}

#[test]
fn one_cell_lies(rt: HostRuntime) -> Result<(), Fail> {
    ends_with_one_lie(rt.alloc())
}

#[test]
fn a_directory_becomes_its_own(rt: HostRuntime) -> Result<(), Fail> {
    let row = row_of(rt.alloc(), 3, &SMALL)?;
    // The parent of slot 1, the directory's, is read when it is looked up, and again when it is named.
    let cells = LyingCells {
        row,
        place: 164 + 2,
        word: 1,
        honest_reads: 1,
    };
    let (_, end) = reach_lying(cells, b"/a")?;
    assert_eq!(rt; end, Err(WalkFault::Refused(Errno::ENAMETOOLONG)));
    Ok(())
}
