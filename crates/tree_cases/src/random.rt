//! Changes that are drawn at random.
ghost use Rattle.std.specs.Prelude.{◌≤◌};

use crate::twins::Twins;
use directory_tree::{Change, LinkBytes};
use names::Path;
use std::alloc::Global;
use test_parts::Random;
use tree_row::MOST_ENTRIES;

/// Why random changes stopped.
#[derive(Clone, Copy, Debug, PartialEq, Eq)]
pub(crate) enum Failure {
    NoMemory,
    /// One of the strings that changes are drawn from is no path.
    NotAPath,
    /// The two trees differ, or the row has no index: what is proved about plans is wrong.
    Differ,
}

// What changes are drawn from, and for which both trees have to report the same after each. Components of seven, eight and nine
// bytes end in, at and after the end of a cell.
const PATHS: [&str; 36] = [
    "/a",
    "/b",
    "/c",
    "/l",
    "/seven77",
    "/eight888",
    "/nine99999",
    "/a/a",
    "/a/b",
    "/a/l",
    "/a/eight888",
    "/b/a",
    "/b/b",
    "/b/seven77",
    "/b/nine99999",
    "/c/a",
    "/c/l",
    "/l/a",
    "/l/b",
    "/l/l",
    "/a/a/a",
    "/a/a/b",
    "/a/b/a",
    "/a/b/nine99999",
    "/b/a/a",
    "/b/a/l/b",
    "/a/b/a/b",
    "/seven77/a",
    "/eight888/b",
    "/nine99999/a/eight888",
    "/a/../b",
    "/l/../c",
    "/b/./a/",
    "/a/b/../../c/b",
    "/a/.",
    "/",
];

// The texts of new links.
const TEXTS: [&str; 8] = [
    "a",
    "/b",
    "../a",
    "l",
    "/a/b/..",
    "a/eight888",
    "../b/nine99999/",
    "/a/a/./../b/../a/nine99999/../../l/eight888/seven77",
];

#[derive(Drop)]
struct Draws {
    random: Random,
}

impl Draws {
    // One of the first paths more often, since the others lead nowhere at first.
    fn path(&mut self) -> Option<Path<'static>> {
        let count = if self.random.below(3) == 0 {
            PATHS.len()
        } else {
            10
        };
        Path::check(PATHS[self.random.below(count)].as_bytes()).ok()
    }

    fn text(&mut self) -> LinkBytes<'static> {
        LinkBytes::new(TEXTS[self.random.below(TEXTS.len())].as_bytes())
    }

    fn change(&mut self) -> Option<Change<'static>> {
        let made = match self.random.below(9) {
            0 | 1 => Change::Mkdir(self.path()?),
            2 => Change::Create(self.path()?),
            3 => Change::Symlink(self.text(), self.path()?),
            4 => Change::Link(self.path()?, self.path()?),
            5 => Change::Unlink(self.path()?),
            6 => Change::Rmdir(self.path()?),
            _ => Change::Rename(self.path()?, self.path()?),
        };
        Some(made)
    }
}

// This many changes are made of one tree. In the long run its entries move to where no path of the table leads.
const CHANGES_OF_A_ROUND: usize = 100;

/// Makes changes of trees with room for N entries, a hundred in each round, which begins with the root alone, and returns how many
/// were made. After each change both trees have to report the same for all paths.
pub(crate) fn change_at_random(
    alloc: Global,
    capacity: usize,
    rounds: usize,
) -> Result<u64, Failure>
    requires { capacity ≤ MOST_ENTRIES }
{
    let mut draws = Draws {
        random: Random::new(capacity as u64),
    };
    let mut made: u64 = 0;
    for _ in 0..rounds {
        made = made.saturating_add(change_one_tree(alloc, capacity, &mut draws)?);
    }
    Ok(made)
}

fn change_one_tree(alloc: Global, capacity: usize, draws: &mut Draws) -> Result<u64, Failure>
    requires { capacity ≤ MOST_ENTRIES }
{
    let Ok(mut twins) = Twins::new(alloc, capacity) else {
        return Err(Failure::NoMemory);
    };
    let mut made = 0;
    for _ in 0..CHANGES_OF_A_ROUND {
        let Some(change) = draws.change() else {
            return Err(Failure::NotAPath);
        };
        match twins.apply(&change) {
            Ok(Ok(version)) => made = version,
            Ok(Err(_)) => {}
            Err(_) => return Err(Failure::Differ),
        }
        if !twins.is_same_at_all(&PATHS) {
            return Err(Failure::Differ);
        }
    }
    Ok(made)
}
