//! The lines of scripts.
use directory_tree::Change;
use names::Path;
use test_parts::{change_of_line, split_at_space};

/// What a line asks for.
#[derive(Drop)]
pub(crate) enum Line<'a> {
    /// Nothing.
    Comment,
    /// A new tree with room for this many entries.
    Room(usize),
    /// Rounds of changes at random, in trees with room for this many entries.
    Draw { capacity: usize, rounds: usize },
    /// Makes the change.
    Make(Change<'a>),
    /// The cells that a change would set.
    Plan(Change<'a>),
    /// The name of the place that a path leads to.
    Name(Path<'a>),
    /// The number of the node that a path leads to.
    Node(Path<'a>),
    /// The text of the link that a path leads to.
    Text(Path<'a>),
}

/// Reads a line.
pub(crate) fn read_line(bytes: &[u8]) -> Option<Line<'_>> {
    if matches!(bytes, [] | [b'=' | b'#', ..]) {
        return Some(Line::Comment);
    }
    let (word, rest) = split_at_space(bytes);
    match word {
        b"room" => Some(Line::Room(number(rest)?)),
        b"draw" => draw(rest),
        b"plan" => Some(Line::Plan(change_of_line(rest)?)),
        b"name" => Some(Line::Name(path(rest)?)),
        b"node" => Some(Line::Node(path(rest)?)),
        b"text" => Some(Line::Text(path(rest)?)),
        _ => Some(Line::Make(change_of_line(bytes)?)),
    }
}

fn draw(rest: &[u8]) -> Option<Line<'_>> {
    let (capacity, rounds) = split_at_space(rest);
    Some(Line::Draw {
        capacity: number(capacity)?,
        rounds: number(rounds)?,
    })
}

fn number(digits: &[u8]) -> Option<usize> {
    str::from_utf8(digits).ok()?.parse().ok()
}

fn path(bytes: &[u8]) -> Option<Path<'_>> {
    Path::check(bytes).ok()
}
