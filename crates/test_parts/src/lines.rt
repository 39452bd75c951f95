//! Changes, written as lines.
ghost use Rattle.std.specs.Prelude.{◌==◌};
ghost use Rattle.names.specs.Ascii.{space};

use directory_tree::{Change, LinkBytes};
use names::{Path, Separator, split_at};

/// The change of a line: a verb and one or two words.
pub fn change_of_line(line: &[u8]) -> Option<Change<'_>> {
    let (verb, rest) = split_at_space(line);
    let (one, two) = split_at_space(rest);
    match (verb, two) {
        (_, b"") => change_at(verb, path(one)?),
        (b"symlink", _) => Some(Change::Symlink(LinkBytes::new(one), path(two)?)),
        _ => change_of_two(verb, path(one)?, path(two)?),
    }
}

fn path(bytes: &[u8]) -> Option<Path<'_>> {
    Path::check(bytes).ok()
}

fn change_at<'a>(verb: &[u8], at: Path<'a>) -> Option<Change<'a>> {
    match verb {
        b"mkdir" => Some(Change::Mkdir(at)),
        b"create" => Some(Change::Create(at)),
        b"unlink" => Some(Change::Unlink(at)),
        b"rmdir" => Some(Change::Rmdir(at)),
        _ => None,
    }
}

fn change_of_two<'a>(verb: &[u8], one: Path<'a>, two: Path<'a>) -> Option<Change<'a>> {
    match verb {
        b"link" => Some(Change::Link(one, two)),
        b"rename" => Some(Change::Rename(one, two)),
        _ => None,
    }
}

// Spaces, which separate the words of a line.
struct Space;

impl Separator for Space {
    ghost separates = { λ byte. byte == space };

    fn separates(byte: u8) -> bool {
        byte == b' '
    }
}

/// What comes before the first space, and what follows it.
pub fn split_at_space(bytes: &[u8]) -> (&[u8], &[u8]) {
    let (word, from) = split_at::<Space>(bytes);
    (word, from.get(1..).unwrap_or(b""))
}
