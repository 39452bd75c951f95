//! The last component of a path, which a change makes or removes, and the text before it.
ghost use Rattle.std.specs.Prelude.{◌≡◌, ◌<◌, ◌≤◌, ◌==◌, ◌⊎◌, ◌∷◌, ◌++◌, [], false, true, length, IfOk, IfErr, Err};
ghost use Rattle.std.specs.List.{list_any};
ghost use Rattle.names.specs.Paths.{filled_parts, ends_with_slash};
ghost use Rattle.directory_tree.specs.Components.{slash};
ghost use Rattle.path_lookup.specs.Target.{is_refused, target_for, IsSplit, AreShort};
ghost use Rattle.directory_tree.specs.Apply.{is_dots};

use names::{Errno, Path};

/// A path in two parts.
#[derive(Clone, Copy)]
pub struct SplitPath<'a> {
    /// The path of the directory that has the entry, or is to have it. No slash is at its end.
    pub before: &'a [u8],
    /// The entry's component.
    pub last: &'a [u8],
}

/// Whether a path may end with a slash.
#[derive(Clone, Copy, Debug, PartialEq, Eq)]
pub enum EndSlash {
    Allowed,
    Refused,
}

impl EndSlash {
    fn is_refused(self) -> bool
        ensures { result ≡ is_refused self }
    {
        matches!(self, EndSlash::Refused)
    }
}

/// The parts of a path. Slashes at its end are dropped.
pub fn split_path<'a>(path: &Path<'a>, slash: EndSlash) -> Result<SplitPath<'a>, Errno>
    ensures ok { IfOk result (λ parts. IsSplit slash path.now parts × AreShort parts) }
    ensures err { IfErr result (λ errno. target_for slash path.now ≡ Err errno) }
{
    split_text(path.as_bytes(), slash)
}

// The parts of any text.
fn split_text(path: &[u8], slash: EndSlash) -> Result<SplitPath<'_>, Errno>
    ensures ok { IfOk result (λ parts. IsSplit slash path.now parts) }
    ensures err { IfErr result (λ errno. target_for slash path.now ≡ Err errno) }
{
    let text = without_end_slashes(path);
    if text.is_empty() {
        return Err(Errno::EBUSY);
    }
    let (front, last) = split_at_last_slash(text);
    if slash.is_refused() && text.len() < path.len() {
        return Err(Errno::EINVAL);
    }
    if is_dots(last) {
        return Err(Errno::EINVAL);
    }
    let before = without_end_slashes(front);
    Ok(SplitPath { before, last })
}

// Whether no entry can have the component: it is `.` or `..`.
fn is_dots(component: &[u8]) -> bool
    ensures { result ≡ is_dots component.now }
{
    component == b".".as_slice() || component == b"..".as_slice()
}

// The text without the slashes at its end.
fn without_end_slashes(text: &[u8]) -> &[u8]
    ensures names { filled_parts result.now ≡ filled_parts text.now }
    ensures open { ends_with_slash result.now ≡ false }
    ensures short { length result.now ≤ length text.now }
    ensures cut { length result.now < length text.now → ends_with_slash text.now ≡ true }
    ensures whole { length result.now ≡ length text.now → ends_with_slash text.now ≡ false }
{
    let mut end = text.len();
    while end > 0 && text[end - 1] == b'/' {
        end -= 1;
    }
    &text[..end]
}

// The text before its last slash, and the text after it.
fn split_at_last_slash(text: &[u8]) -> (&[u8], &[u8])
    ensures no_slash { list_any (λ b. b == slash) result.1.now ≡ false }
    ensures whole { ((result.0.now ≡ []) × (text.now ≡ result.1.now)) ⊎ (text.now ≡ result.0.now ++ slash ∷ result.1.now) }
{
    let mut start = text.len();
    while start > 0 && text[start - 1] != b'/' {
        start -= 1;
    }
    if start == 0 {
        return (&text[..0], text);
    }
    (&text[..start - 1], &text[start..])
}
