//! Walks and names over the words of a row that are known.
ghost use Rattle.std.specs.Prelude.{◌≡◌, ◌≤◌, IfOk, IfErr, Ok, take};
ghost use Rattle.directory_tree.specs.Apply.{and_then};
ghost use Rattle.directory_tree.specs.Name.{judged_name};
ghost use Rattle.directory_tree.specs.Place.{named_place};
ghost use Rattle.directory_tree.specs.Walk.{walk};
ghost use Rattle.tree_row.specs.Slots.{slot_at};
ghost use Rattle.tree_row.specs.Worlds.{spot_at};
ghost use Rattle.tree_row.specs.Known.{Agrees, InEach, StopsKnown};
ghost use Rattle.tree_row.specs.inner.WantedWords.{IsHonest, stop_from};

use crate::cells::Cells;
use crate::known::KnownWords;
use crate::look::{RowEntry, RowLook};
use crate::stop::Stop;
use directory_tree::Last;
use names::{LONGEST_PATH, Path};
use path_lookup::{NAME_ROOM, Reached, Scratch, WalkFault, name_of_place, reach, resolve};

/// The cells of a row, of which some words are known.
#[derive(Drop)]
struct PartCells<'a> {
    known: &'a KnownWords,
    // The last requested word that isn't known.
    wanted: Option<usize>,
    ghost honest: { IsHonest known.now.0 known.now.1 wanted },
}

impl<'a> Cells for PartCells<'a> {
    ghost use Rattle.std.specs.Prelude.{ℕ, List, IsSome};
    ghost use Rattle.tree_row.specs.Known.{Agrees};

    ghost Kept = { ℕ × List (ℕ × ℕ) };

    ghost kept = { λ c. c.known.now };

    ghost capacity_of = { λ k. k.0 };

    ghost may = { λ c row. Agrees c.known.now.1 row };

    ghost whole = { λ _ _. ⊥ };

    ghost unknown = { λ c. IsSome c.wanted };

    ghost whole_may = { λ c row none. absurd none };

    fn capacity(&self) -> usize {
        self.known.capacity()
    }

    fn word(&mut self, place: usize) -> Option<u64> {
        let word = self.known.word(place);
        if word.is_none() {
            self.wanted = Some(place);
        }
        word
    }
}

impl<'a> PartCells<'a> {
    fn new(known: &'a KnownWords) -> PartCells<'a>
        ensures { result.known.now ≡ known.now }
    {
        PartCells {
            known,
            wanted: None,
        }
    }

    // Why a walk with this fault stops.
    fn stop(&self, fault: WalkFault) -> Stop
        ensures { result ≡ stop_from fault self.now.wanted }
    {
        match fault {
            WalkFault::Refused(errno) => Stop::Refused(errno),
            WalkFault::Torn => match self.wanted {
                Some(place) => Stop::Wants(place),
                None => Stop::Torn,
            },
        }
    }
}

/// Where a path leads, as far as the words that are known decide it, or why they don't. Each known word is right, but the
/// walk may ask for words in any order. Nothing is allocated.
pub fn walk_known(
    known: &KnownWords,
    path: &Path<'_>,
    last: Last,
    scratch: &mut Scratch,
) -> Result<RowEntry, Stop>
    ensures found { IfOk result (λ entry. InEach known.now.0 (Agrees known.now.1)
        (λ row t. walk t last path.now ≡ Ok (spot_at (slot_at row) entry.slot))) }
    ensures stops { IfErr result (StopsKnown known.now.0 known.now.1 (λ t. walk t last path.now)) }
{
    let mut look = RowLook::new(PartCells::new(known));
    match resolve(&mut look, path, last, scratch) {
        Ok(entry) => Ok(entry),
        Err(fault) => Err(look.cells.stop(fault)),
    }
}

/// Where a path leads, and what that is named, as far as the words that are known decide it, or why they don't. The name
/// is written to the front of `room`, as `path_lookup::name_of` does. Nothing is allocated.
pub fn name_known(
    known: &KnownWords,
    path: &Path<'_>,
    last: Last,
    scratch: &mut Scratch,
    room: &mut [u8; NAME_ROOM],
) -> Result<Reached<RowEntry>, Stop>
    ensures fits { IfOk result (λ reached. reached.length ≤ LONGEST_PATH) }
    ensures found { IfOk result (λ reached. InEach known.now.0 (Agrees known.now.1)
        (λ row t. walk t last path.now ≡ Ok (spot_at (slot_at row) reached.entry.slot))) }
    ensures name { IfOk result (λ reached. InEach known.now.0 (Agrees known.now.1)
        (λ row t. and_then (walk t last path.now) (judged_name t) ≡ Ok (take reached.length room.new))) }
    ensures stops { IfErr result (StopsKnown known.now.0 known.now.1 (λ t. and_then (walk t last path.now) (judged_name t))) }
{
    let mut look = RowLook::new(PartCells::new(known));
    match reach(&mut look, path, last, scratch, room) {
        Ok(reached) => Ok(reached),
        Err(fault) => Err(look.cells.stop(fault)),
    }
}

/// The name of the place that a path names, as far as the words that are known decide it, or why they don't. It is written to
/// the front of `room`, as `path_lookup::name_of_place` does, and its length is returned. Nothing is allocated.
pub fn name_place_known(
    known: &KnownWords,
    path: &Path<'_>,
    scratch: &mut Scratch,
    room: &mut [u8; NAME_ROOM],
) -> Result<usize, Stop>
    ensures fits { IfOk result (λ length. length ≤ LONGEST_PATH) }
    ensures name { IfOk result (λ length. InEach known.now.0 (Agrees known.now.1)
        (λ row t. named_place t path.now ≡ Ok (take length room.new))) }
    ensures stops { IfErr result (StopsKnown known.now.0 known.now.1 (λ t. named_place t path.now)) }
{
    let mut look = RowLook::new(PartCells::new(known));
    match name_of_place(&mut look, path, scratch, room) {
        Ok(length) => Ok(length),
        Err(fault) => Err(look.cells.stop(fault)),
    }
}
