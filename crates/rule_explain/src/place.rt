//! Lines and columns of a text.
ghost use Rattle.std.specs.Prelude.{◌≡◌, length, count_by, take, drop};
ghost use Rattle.std.specs.List.{after_last, before_first};
ghost use Rattle.rule_explain.specs.Places.{front_of_line, is_line_feed, place_at, rest_of_line};

/// A place in a text. Lines and columns are counted from 1, and columns count bytes.
#[derive(Clone, Copy, Debug, PartialEq, Eq)]
pub struct Place {
    pub line: usize,
    pub column: usize,
}

/// The place of the byte at this offset.
pub fn place_at(text: &[u8], offset: usize) -> Place
    ensures { result ≡ place_at text.now offset }
{
    let (before, _) = parts_at(text, offset);
    Place {
        line: line_feeds(before) + 1,
        column: last_line(before).len() + 1,
    }
}

/// The bytes of a line on both sides of a place.
pub(crate) fn line_at(text: &[u8], offset: usize) -> (&[u8], &[u8])
    ensures front { result.0.now ≡ front_of_line text.now offset }
    ensures rest { result.1.now ≡ rest_of_line text.now offset }
{
    let (before, behind) = parts_at(text, offset);
    (last_line(before), first_line(behind))
}

/// The bytes before a place, and the others.
pub(crate) fn parts_at(text: &[u8], offset: usize) -> (&[u8], &[u8])
    ensures before { result.0.now ≡ take offset text.now }
    ensures behind { result.1.now ≡ drop offset text.now }
{
    text.split_at(offset.min(text.len()))
}

fn line_feeds(bytes: &[u8]) -> usize
    ensures { result ≡ count_by is_line_feed bytes.now }
{
    bytes.iter().filter(|byte| **byte == b'\n').count()
}

/// The bytes after the last line feed.
fn last_line(bytes: &[u8]) -> &[u8]
    ensures { result.now ≡ after_last is_line_feed bytes.now }
{
    let mut start = bytes.len();
    while start > 0 && bytes[start - 1] != b'\n' {
        start -= 1;
    }
    &bytes[start..]
}

/// The bytes before the first line feed.
fn first_line(bytes: &[u8]) -> &[u8]
    ensures { result.now ≡ before_first is_line_feed bytes.now }
{
    let mut end = 0;
    while end < bytes.len() && bytes[end] != b'\n' {
        end += 1;
    }
    &bytes[..end]
}
