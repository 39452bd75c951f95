//! The walk of an open over words that were already read, and words that it reads itself.
ghost use Rattle.std.specs.Prelude.{◌≡◌, ◌++◌, ◌≤◌, true, List, None, Ok, length, IfOk, IfErr, OnErr};
ghost use Rattle.mediation.specs.Opens.{can_be_asked, reached, reached_by_path};
ghost use Rattle.names.specs.Paths.{path_fault};
ghost use Rattle.row_rule.specs.declared.cell.Cell.{Cell};
ghost use Rattle.open_session.specs.Words.{ReadsOn};
ghost use Rattle.open_session.specs.Outcomes.{Decides, IsLack};
ghost use Rattle.open_session.specs.declared.outcome.Outcome.TheVariants as outcome;

use crate::cells::RowCells;
use crate::outcome::{Outcome, Reach};
use crate::words::WalkWords;
use mediation::{can_be_asked, reach_path};
use names::{Errno, Path, Perms};
use path_lookup::{NAME_ROOM, Scratch};
use tree_row::{KnownRow, RowLook};

/// Finds what an open reaches (open(2), path_resolution(7)), as far as the words already read and at most `most` further words
/// of `row` decide it. Reads only words that the walk needs, none of them twice. Writes the name of the file to the front of
/// `room`. If the request or the path is invalid by itself, no word is needed; if no word is read, nothing is allocated.
pub fn reach_on(
    words: WalkWords,
    row: &KnownRow,
    most: usize,
    path: &[u8],
    ask: Perms,
    scratch: &mut Scratch,
    room: &mut [u8; NAME_ROOM],
) -> Reach
    requires { row.now.0 ≡ words.0 }
    ensures capacity { result.words.0 ≡ words.0 }
    ensures reads { (more : List Cell) × (result.words.1 ≡ more ++ words.1) × ReadsOn row.now.1 more words.1 × (length more ≤ most) }
    ensures decided { IfOk result.end (Decides words.0 result.words.1 room.new (λ t. reached t path.now ask)) }
    ensures lacks { IfErr result.end (IsLack words.0 words.1 result.words.1 most) }
    ensures sound { OnErr result.end ((can_be_asked ask ≡ true) × (path_fault path.now ≡ None)) }
{
    if !can_be_asked(ask) {
        return refused(words, Errno::EINVAL);
    }
    match Path::check(path) {
        Ok(path) => walk_on(words, row, most, &path, scratch, room),
        Err(errno) => refused(words, errno),
    }
}

/// The refusal of an open whose own arguments are invalid.
fn refused(words: WalkWords, errno: Errno) -> Reach
    ensures words { result.words ≡ words }
    ensures end { result.end ≡ Ok (outcome.Refused errno) }
{
    Reach {
        words,
        end: Ok(Outcome::Refused(errno)),
    }
}

/// Finds what a path leads to; a link at its end is followed.
fn walk_on(
    words: WalkWords,
    row: &KnownRow,
    most: usize,
    path: &Path<'_>,
    scratch: &mut Scratch,
    room: &mut [u8; NAME_ROOM],
) -> Reach
    requires { row.now.0 ≡ words.0 }
    ensures capacity { result.words.0 ≡ words.0 }
    ensures reads { (more : List Cell) × (result.words.1 ≡ more ++ words.1) × ReadsOn row.now.1 more words.1 × (length more ≤ most) }
    ensures decided { IfOk result.end (Decides words.0 result.words.1 room.new (λ t. reached_by_path t path.now)) }
    ensures lacks { IfErr result.end (IsLack words.0 words.1 result.words.1 most) }
{
    let mut look = RowLook::new(RowCells::new(words, row, most));
    let end = reach_path(&mut look, path, scratch, room);
    look.into_cells().ended(end)
}
