//! Attempts to reach files with numbered names.
use super::attempts::{Aim, Room, Tally, walk_once};
use crate::changes::path;
use crate::numbers::{count_up, name_of_number};
use dentry_cache::Walker;

/// Numbers one after another.
#[derive(Clone, Copy)]
pub(crate) struct Numbers<'n> {
    pub first: usize,
    /// For each of them, whether a file has its name.
    pub are_there: &'n [bool],
}

/// Attempts to reach the name of each of the numbers in turn, round after round until `attempts` are made, and returns the
/// outcome; none if there are no numbers.
pub(crate) fn walk_numbers(
    walker: Walker,
    numbers: Numbers<'_>,
    attempts: u64,
) -> Option<(Walker, Tally)> {
    let Numbers { first, are_there } = numbers;
    let first = name_of_number(first);
    let mut walker = walker;
    let mut room = Room::new();
    let mut tally = Tally::NONE;
    let mut name = first;
    let mut place = 0;
    for _ in 0..attempts {
        let aim = Aim {
            path: &path(&name)?,
            is_there: *are_there.get(place)?,
        };
        let (next, one) = walk_once(walker, aim, &mut room);
        walker = next;
        tally = tally.and(one);
        place += 1;
        count_up(&mut name);
        if place == are_there.len() {
            place = 0;
            name = first;
        }
    }
    Some((walker, tally))
}
