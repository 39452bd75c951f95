ghost use Rattle.std.specs.Prelude.{◌≡◌, ◌<◌, ◌≤◌, ◌-◌, ◌∷◌, IfOk, IfErr, IfSome, IfNone, None, Some, drop, length, true};
ghost use Rattle.std.specs.Iterator.{YieldsFirstBy, item_count};
ghost use Rattle.names.specs.Limits.{longest_path};
ghost use Rattle.names.specs.Paths.{components, path_fault, begins_with_slash, has_long_component, is_slash};

use crate::Errno;
use crate::limits::{LONGEST_COMPONENT, LONGEST_PATH};
use crate::split::{Separator, skip, split_at};
use std::iter::FusedIterator;
use std::marker::Model;

/// A path as calls take it (path_resolution(7)). It begins with a slash, has no byte 0, and is
/// nowhere too long. Its bytes need not be UTF-8.
#[derive(Debug, Drop)]
pub struct Path<'a> {
    bytes: &'a [u8],
}

impl<'a> Model for Path<'a> {
    ghost use Rattle.std.specs.Prelude.{◌≡◌, ℕ, List, None};
    ghost use Rattle.names.specs.Paths.{path_fault};

    ghost Value = { List ℕ };

    ghost view = { λ p. p.bytes.now };

    ghost invariant = { λ p. path_fault p.bytes.now ≡ None };
}

impl<'a> Path<'a> {
    /// The bytes as a path, or why they aren't one, by the first of these tests that fails: they
    /// are empty (ENOENT), begin with no slash or have a byte 0 (EINVAL), or are too long as a
    /// whole or in some component (ENAMETOOLONG). Nothing is allocated.
    pub fn check(bytes: &'a [u8]) -> Result<Path<'a>, Errno>
        ensures path { IfOk result (λ path. (path ≡ bytes.now) × (path_fault path ≡ None)) }
        ensures fault { IfErr result (λ fault. path_fault bytes.now ≡ Some fault) }
    {
        if bytes.is_empty() {
            return Err(Errno::ENOENT);
        }
        if bytes[0] != b'/' {
            return Err(Errno::EINVAL);
        }
        if bytes.contains(&0) {
            return Err(Errno::EINVAL);
        }
        if bytes.len() > LONGEST_PATH {
            return Err(Errno::ENAMETOOLONG);
        }
        if has_long_component(bytes) {
            return Err(Errno::ENAMETOOLONG);
        }
        Ok(Path { bytes })
    }

    /// The path as it was given.
    pub fn as_bytes(&self) -> &'a [u8]
        ensures bytes { result.now ≡ self.now }
        ensures checked { path_fault self.now ≡ None }
    {
        self.bytes
    }

    /// What a walk of the path takes, one component after the other. Nothing is allocated.
    pub fn components(&self) -> Components<'a>
        ensures components { result ≡ components self.now }
        ensures few { length result ≤ longest_path }
        ensures checked { path_fault self.now ≡ None }
    {
        Components { left: self.bytes }
    }
}

/// The non-empty parts between a text's slashes, and then `.` where it ends with a slash, seen as
/// the list of those that are left. So a walk of `/a/` takes `a` and then `.`, which fails where
/// `a` is no directory.
#[derive(Debug, Drop)]
pub struct Components<'a> {
    left: &'a [u8],
}

impl<'a> Model for Components<'a> {
    ghost use Rattle.std.specs.Prelude.{ℕ, List};
    ghost use Rattle.names.specs.Paths.{components};

    ghost Value = { List (List ℕ) };

    ghost view = { λ c. components c.left.now };
}

impl<'a> Components<'a> {
    /// The components of any text, such as the text of a symbolic link. Nothing is allocated.
    pub fn of(text: &'a [u8]) -> Components<'a>
        ensures { result ≡ components text.now }
    {
        Components { left: text }
    }
}

impl<'a> Iterator for Components<'a> {
    type Item = &'a [u8];

    ghost next_gives = { YieldsFirstBy (λ component. component.now) (λ left. left) };

    ghost remaining = { item_count (λ left. left) };

    fn next(&mut self) -> Option<&'a [u8]> {
        let (component, left) = split_component(self.left)?;
        self.left = left;
        Some(component)
    }
}

impl<'a> FusedIterator for Components<'a> {}

/// Slashes, which separate the components of a path.
#[derive(Debug, Drop)]
pub struct Slash;

impl Separator for Slash {
    ghost separates = { is_slash };

    fn separates(byte: u8) -> bool {
        byte == b'/'
    }
}

/// The first component of any text, and the end of the text that follows it: nothing, or text that
/// begins with a slash. Only an empty text has none. Nothing is allocated.
pub fn split_component(text: &[u8]) -> Option<(&[u8], &[u8])>
    ensures none { IfNone result (length text.now ≡ 0) }
    ensures first { IfSome result (λ cut. components text.now ≡ cut.0.now ∷ components cut.1.now) }
    ensures shorter { IfSome result (λ cut. length cut.1.now < length text.now) }
    ensures end { IfSome result (λ cut. cut.1.now ≡ drop (length text.now - length cut.1.now) text.now) }
    ensures slash { IfSome result (λ cut. 0 < length cut.1.now → begins_with_slash cut.1.now ≡ true) }
{
    if text.is_empty() {
        return None;
    }
    let (component, left) = split_at::<Slash>(skip::<Slash>(text));
    if component.is_empty() {
        // Only slashes were left, so the text ends with one.
        return Some((b".", left));
    }
    Some((component, left))
}

/// Whether some component of the text is too long. Nothing is allocated.
pub fn has_long_component(text: &[u8]) -> bool
    ensures { result ≡ has_long_component text.now }
{
    // No component is longer than the text, so most texts need no walk.
    text.len() > LONGEST_COMPONENT
        && Components::of(text).any(|component| component.len() > LONGEST_COMPONENT)
}
