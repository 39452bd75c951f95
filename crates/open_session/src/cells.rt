//! The cells of a row, as a walk reads them.
ghost use Rattle.std.specs.Prelude.{◌≡◌, ◌≤◌, ℕ, length, take, drop};
ghost use Rattle.open_session.specs.Words.{ReadsOn};
ghost use Rattle.open_session.specs.inner.ReadCells.{IsHonest, end_by, ReadsOn-prop};

use crate::outcome::{Lack, Outcome, Reach};
use crate::words::WalkWords;
use mediation::Reached;
use path_lookup::WalkFault;
use row_rule::Cell;
use tree_row::{Cells, KnownRow};

/// The cells of a row: a word that was read before is returned again, any other is read, if it may be.
#[derive(Drop)]
pub(crate) struct RowCells<'a> {
    words: WalkWords,
    row: &'a KnownRow,
    // The most words that may be read, and how many were.
    most: usize,
    read: usize,
    // The first word that was requested and couldn't be returned. From then on none is read.
    lack: Option<Lack>,
    ghost one_capacity: { row.now.0 ≡ words.0 },
    ghost few: { read ≤ most },
    ghost counted: { read ≤ length words.1 },
    ghost own: { ReadsOn row.now.1 (take read words.1) (drop read words.1) } by { ReadsOn-prop row.now.1 (take read words.1)
        (drop read words.1) },
    ghost honest: { IsHonest words.0 words.1 most read lack },
}

impl<'a> Cells for RowCells<'a> {
    ghost use Rattle.std.specs.Prelude.{ℕ, List, IsSome, drop};
    ghost use Rattle.row_rule.specs.declared.cell.Cell.{Cell};
    ghost use Rattle.row_rule.specs.Row.{Agrees};

    ghost Kept = { ℕ × (ℕ × List ℕ) × ℕ × List Cell };

    ghost kept = { λ c. (c.words.0, c.row.now, c.most, drop c.read c.words.1) };

    ghost capacity_of = { λ k. k.0 };

    ghost may = { λ c row. Agrees c.words.1 row };

    ghost whole = { λ _ _. ⊥ };

    ghost unknown = { λ c. IsSome c.lack };

    ghost whole_may = { λ c row none. absurd none };

    fn capacity(&self) -> usize {
        self.words.capacity()
    }

    fn word(&mut self, place: usize) -> Option<u64> {
        let known = self.words.word(place);
        if known.is_some() {
            return known;
        }
        if self.lack.is_some() {
            return None;
        }
        if self.read == self.most {
            self.lack = Some(Lack::Wants(place));
            return None;
        }
        let word = self.row.cell(place);
        match self.words.read(Cell { place, word }) {
            Ok(()) => {
                self.read += 1;
                Some(word)
            }
            Err(_) => {
                self.lack = Some(Lack::NoMemory(place));
                None
            }
        }
    }
}

impl<'a> RowCells<'a> {
    /// No word is read yet beyond those in `words`.
    pub(crate) fn new(words: WalkWords, row: &'a KnownRow, most: usize) -> RowCells<'a>
        requires { row.now.0 ≡ words.0 }
        ensures words { result.words ≡ words }
        ensures row { result.row.now ≡ row.now }
        ensures most { result.most ≡ most }
        ensures read { result.read ≡ 0 }
    {
        RowCells {
            words,
            row,
            most,
            read: 0,
            lack: None,
        }
    }

    /// The outcome of a walk with this end.
    pub(crate) fn ended(self, end: Result<Reached, WalkFault>) -> Reach
        ensures words { result.words ≡ self.entry.words }
        ensures end { result.end ≡ end_by end self.entry.lack }
    {
        let end = match end {
            Ok(file) => Ok(Outcome::Reached(file)),
            Err(WalkFault::Refused(errno)) => Ok(Outcome::Refused(errno)),
            Err(WalkFault::Torn) => match self.lack {
                Some(lack) => Err(lack),
                None => Ok(Outcome::Torn),
            },
        };
        Reach {
            words: self.words,
            end,
        }
    }
}
