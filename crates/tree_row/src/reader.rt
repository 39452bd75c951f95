//! Walks and names that read words of a row, as many as they may.
ghost use Rattle.std.specs.Prelude.{◌≡◌, ◌≤◌, IfOk, IfErr, Ok, Err, length, take};
ghost use Rattle.directory_tree.specs.Apply.{and_then};
ghost use Rattle.directory_tree.specs.Name.{judged_name};
ghost use Rattle.directory_tree.specs.Place.{named_place};
ghost use Rattle.directory_tree.specs.Walk.{walk};
ghost use Rattle.tree_row.specs.Slots.{slot_at};
ghost use Rattle.tree_row.specs.Worlds.{spot_at};
ghost use Rattle.tree_row.specs.Known.{Agrees, InEach};
ghost use Rattle.tree_row.specs.ReadWords.{AgreesBoth, AreNew, StopsReading};
ghost use Rattle.tree_row.specs.inner.Lacks.{IsHonestLack, stop_by};

use crate::cells::Cells;
use crate::known::KnownWords;
use crate::known_row::KnownRow;
use crate::look::{RowEntry, RowLook};
use crate::stop::Stop;
use directory_tree::Last;
use names::{LONGEST_PATH, Path};
use path_lookup::{NAME_ROOM, Reached, Scratch, WalkFault, name_of_place, reach, resolve};
use std::alloc::Global;

/// The outcome of a walk that read words.
#[derive(Drop)]
pub struct Reading<T> {
    /// The words that it read.
    pub read: KnownWords,
    /// Where it ended, or why it has no end.
    pub end: Result<T, Stop>,
}

// Why a requested word wasn't returned.
#[derive(Clone, Copy)]
enum Lack {
    // The word at this place isn't known, and no more may be read.
    Wants(usize),
    NoMemory,
}

// The cells of a row: a known word is returned, any other is read.
#[derive(Drop)]
struct ReadCells<'a> {
    known: &'a KnownWords,
    row: &'a KnownRow,
    read: KnownWords,
    // The most words that may be read.
    most: usize,
    lack: Option<Lack>,
    ghost one_capacity: { row.now.0 ≡ known.now.0 },
    ghost own: { Agrees read.1 row.now.1 },
    ghost new: { AreNew known.now.1 read.1 },
    ghost few: { length read.1 ≤ most },
    ghost honest: { IsHonestLack known.now.0 known.now.1 read.1 most lack },
}

impl<'a> Cells for ReadCells<'a> {
    ghost use Rattle.std.specs.Prelude.{ℕ, List, IsSome};
    ghost use Rattle.tree_row.specs.ReadWords.{AgreesBoth};

    ghost Kept = { (ℕ × List (ℕ × ℕ)) × (ℕ × List ℕ) × ℕ };

    ghost kept = { λ c. (c.known.now, c.row.now, c.most) };

    ghost capacity_of = { λ k. k.0.0 };

    ghost may = { λ c row. AgreesBoth c.known.now.1 c.read.1 row };

    ghost whole = { λ _ _. ⊥ };

    ghost unknown = { λ c. IsSome c.lack };

    ghost whole_may = { λ c row none. absurd none };

    fn capacity(&self) -> usize {
        self.known.capacity()
    }

    fn word(&mut self, place: usize) -> Option<u64> {
        let known = self.known.word(place);
        if known.is_some() {
            return known;
        }
        let read = self.read.word(place);
        if read.is_some() {
            return read;
        }
        if self.read.count() == self.most {
            self.lack = Some(Lack::Wants(place));
            return None;
        }
        let word = self.row.cell(place);
        match self.read.learn(place, word) {
            Ok(()) => Some(word),
            Err(_) => {
                self.lack = Some(Lack::NoMemory);
                None
            }
        }
    }
}

impl<'a> ReadCells<'a> {
    // No word is read yet.
    fn new(alloc: Global, known: &'a KnownWords, row: &'a KnownRow, most: usize) -> ReadCells<'a>
        requires { row.now.0 ≡ known.now.0 }
        ensures known { result.known.now ≡ known.now }
        ensures row { result.row.now ≡ row.now }
        ensures most { result.most ≡ most }
    {
        ReadCells {
            known,
            row,
            read: KnownWords::new(alloc, known.capacity()),
            most,
            lack: None,
        }
    }

    // The outcome of a walk with this fault.
    fn stopped<T>(self, fault: WalkFault) -> Reading<T>
        ensures read { result.read ≡ self.entry.read }
        ensures end { result.end ≡ Err (stop_by fault self.entry.lack) }
    {
        let stop = match fault {
            WalkFault::Refused(errno) => Stop::Refused(errno),
            WalkFault::Torn => match self.lack {
                Some(Lack::Wants(place)) => Stop::Wants(place),
                Some(Lack::NoMemory) => Stop::NoMemory,
                None => Stop::Torn,
            },
        };
        Reading {
            read: self.read,
            end: Err(stop),
        }
    }
}

/// Where a path leads, as far as what is known and at most `most` further words of `row` decide it. Only words that the
/// walk needs are read, none of them twice, and none that is known.
pub fn walk_and_read(
    alloc: Global,
    known: &KnownWords,
    row: &KnownRow,
    most: usize,
    path: &Path<'_>,
    last: Last,
    scratch: &mut Scratch,
) -> Reading<RowEntry>
    requires { row.now.0 ≡ known.now.0 }
    ensures own { Agrees result.read.1 row.now.1 }
    ensures new { AreNew known.now.1 result.read.1 }
    ensures few { length result.read.1 ≤ most }
    ensures found { IfOk result.end (λ entry. InEach known.now.0 (AgreesBoth known.now.1 result.read.1)
        (λ row t. walk t last path.now ≡ Ok (spot_at (slot_at row) entry.slot))) }
    ensures stops { IfErr result.end (StopsReading known.now.0 known.now.1 result.read.1 most (λ t. walk t last path.now)) }
{
    let mut look = RowLook::new(ReadCells::new(alloc, known, row, most));
    match resolve(&mut look, path, last, scratch) {
        Ok(entry) => Reading {
            read: look.into_cells().read,
            end: Ok(entry),
        },
        Err(fault) => look.into_cells().stopped(fault),
    }
}

/// Where a path leads, and what that is named, as far as what is known and at most `most` further words of `row` decide it,
/// as [`walk_and_read`] reads them. The name is written to the front of `room`.
pub fn name_and_read(
    alloc: Global,
    known: &KnownWords,
    row: &KnownRow,
    most: usize,
    path: &Path<'_>,
    last: Last,
    scratch: &mut Scratch,
    room: &mut [u8; NAME_ROOM],
) -> Reading<Reached<RowEntry>>
    requires { row.now.0 ≡ known.now.0 }
    ensures own { Agrees result.read.1 row.now.1 }
    ensures new { AreNew known.now.1 result.read.1 }
    ensures few { length result.read.1 ≤ most }
    ensures fits { IfOk result.end (λ reached. reached.length ≤ LONGEST_PATH) }
    ensures found { IfOk result.end (λ reached. InEach known.now.0 (AgreesBoth known.now.1 result.read.1)
        (λ row t. walk t last path.now ≡ Ok (spot_at (slot_at row) reached.entry.slot))) }
    ensures name { IfOk result.end (λ reached. InEach known.now.0 (AgreesBoth known.now.1 result.read.1)
        (λ row t. and_then (walk t last path.now) (judged_name t) ≡ Ok (take reached.length room.new))) }
    ensures stops { IfErr result.end (StopsReading known.now.0 known.now.1 result.read.1 most
        (λ t. and_then (walk t last path.now) (judged_name t))) }
{
    let mut look = RowLook::new(ReadCells::new(alloc, known, row, most));
    match reach(&mut look, path, last, scratch, room) {
        Ok(reached) => Reading {
            read: look.into_cells().read,
            end: Ok(reached),
        },
        Err(fault) => look.into_cells().stopped(fault),
    }
}

/// The name of the place that a path names, as far as what is known and at most `most` further words of `row` decide it, as
/// [`walk_and_read`] reads them. It is written to the front of `room`, and its length is returned.
pub fn name_place_and_read(
    alloc: Global,
    known: &KnownWords,
    row: &KnownRow,
    most: usize,
    path: &Path<'_>,
    scratch: &mut Scratch,
    room: &mut [u8; NAME_ROOM],
) -> Reading<usize>
    requires { row.now.0 ≡ known.now.0 }
    ensures own { Agrees result.read.1 row.now.1 }
    ensures new { AreNew known.now.1 result.read.1 }
    ensures few { length result.read.1 ≤ most }
    ensures fits { IfOk result.end (λ length. length ≤ LONGEST_PATH) }
    ensures name { IfOk result.end (λ length. InEach known.now.0 (AgreesBoth known.now.1 result.read.1)
        (λ row t. named_place t path.now ≡ Ok (take length room.new))) }
    ensures stops { IfErr result.end (StopsReading known.now.0 known.now.1 result.read.1 most (λ t. named_place t path.now)) }
{
    let mut look = RowLook::new(ReadCells::new(alloc, known, row, most));
    match name_of_place(&mut look, path, scratch, room) {
        Ok(length) => Reading {
            read: look.into_cells().read,
            end: Ok(length),
        },
        Err(fault) => look.into_cells().stopped(fault),
    }
}
