//! A walk's steps.
ghost use Rattle.std.specs.Prelude.{◌≡◌, ◌+◌, length};
ghost use Rattle.tree_row.specs.Rows.{row_length};
ghost use Rattle.row_rule.specs.Row.{count_of};
ghost use Rattle.row_rule.specs.Steps.{newcomer, beginning};
ghost use Rattle.open_session.specs.inner.StageData.{IsWalk, ReadsSome, next_of, walker_of};
ghost use Rattle.open_session.specs.inner.Ends.{next_after, counted_by};

use crate::call::Policed;
use crate::walk::{Next, Walk};
use crate::{Lack, Outcome, Reach, WalkWords, reach_on};
use event_machine::StepFault;
use path_lookup::{NAME_ROOM, Scratch};
use row_keeper::SteppedKeeper;
use row_rule::Cell;
use std::alloc::Global;
use tree_row::KnownRow;

/// The outcome of reading cells.
#[derive(Drop)]
pub(crate) struct Readings {
    pub(crate) walk: Walk,
    /// The number of cells read, unless memory was refused for one.
    pub(crate) count: Result<usize, StepFault>,
}

impl Next {
    /// What follows from what the words decide: a missing word is read next.
    fn after(end: Result<Outcome, Lack>) -> Next
        ensures { result ≡ next_after end }
    {
        match end {
            Ok(Outcome::Reached(file)) => Next::Reached(file),
            Ok(Outcome::Refused(errno)) => Next::Refused(errno),
            Ok(Outcome::Torn) => Next::Torn,
            Err(Lack::Wants(place)) => Next::Read(place),
            Err(Lack::NoMemory(place)) => Next::Read(place),
        }
    }
}

impl Walk {
    /// Reads the count. After an even one, chooses the first word to read, or ends without reading any.
    pub(crate) fn begin(
        alloc: Global,
        policed: Policed,
        keeper: &SteppedKeeper,
        scratch: &mut Scratch,
        room: &mut [u8; NAME_ROOM],
    ) -> Walk
        ensures stands { IsWalk keeper.now.0 room.new result }
        ensures policed { result.policed ≡ policed }
        ensures begun { walker_of result ≡ beginning newcomer (count_of keeper.now.1) keeper.now.1.history }
    {
        let noted = keeper.count();
        let seen = keeper.history().again();
        let words = WalkWords::new(alloc, keeper.capacity());
        if noted % 2 == 1 {
            return Walk {
                policed,
                noted,
                seen,
                words,
                next: Next::Disturbed,
            };
        }
        let call = &policed.call;
        let Reach { words, end } = reach_on(
            words,
            keeper.row(),
            0,
            &call.path,
            call.ask,
            scratch,
            room,
        );
        Walk {
            policed,
            noted,
            seen,
            words,
            next: Next::after(end),
        }
    }

    /// The place of the word that it reads next; none if the walk has ended.
    pub(crate) fn next_place(&self) -> Option<usize>
        ensures { result ≡ next_of self.now.next }
    {
        match self.next {
            Next::Read(place) => Some(place),
            _ => None,
        }
    }

    /// Reads as many cells as it needs, at most `most`. The name that it finds is written to the front of `room`.
    pub(crate) fn read_cells(
        self,
        row: &KnownRow,
        most: usize,
        scratch: &mut Scratch,
        room: &mut [u8; NAME_ROOM],
    ) -> Readings
        requires stands { IsWalk row.now.0 room.old self }
        requires long { length row.now.1 ≡ row_length row.now.0 }
        ensures { ReadsSome row.now.0 row.now.1 most room.new self result }
    {
        match self.next_place() {
            Some(place) if most > 0 => self.read_from(place, row, most - 1, scratch, room),
            _ => Readings {
                walk: self,
                count: Ok(0),
            },
        }
    }

    /// Reads the cell at the chosen place, and then at most `further` more.
    fn read_from(
        self,
        place: usize,
        row: &KnownRow,
        further: usize,
        scratch: &mut Scratch,
        room: &mut [u8; NAME_ROOM],
    ) -> Readings
        requires stands { IsWalk row.now.0 room.old self }
        requires long { length row.now.1 ≡ row_length row.now.0 }
        requires chosen { self.next ≡ Next.Read place }
        ensures { ReadsSome row.now.0 row.now.1 (further + 1) room.new self result }
    {
        let mut walk = self;
        let word = row.cell(place);
        let Ok(()) = walk.words.read(Cell { place, word }) else {
            return Readings {
                walk,
                count: Err(StepFault::NoMemory),
            };
        };
        let Walk {
            policed,
            noted,
            seen,
            words,
            ..
        } = walk;
        let known = words.count();
        let call = &policed.call;
        let Reach { words, end } = reach_on(
            words, row, further, &call.path, call.ask, scratch, room,
        );
        let count = counted(words.count() - known + 1, end);
        Readings {
            walk: Walk {
                policed,
                noted,
                seen,
                words,
                next: Next::after(end),
            },
            count,
        }
    }
}

/// The number of cells read is `count`, unless memory was refused for one.
fn counted(count: usize, end: Result<Outcome, Lack>) -> Result<usize, StepFault>
    ensures { result ≡ counted_by count end }
{
    match end {
        Err(Lack::NoMemory(_)) => Err(StepFault::NoMemory),
        _ => Ok(count),
    }
}
