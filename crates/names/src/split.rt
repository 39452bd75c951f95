//! Text split at bytes of one kind: paths at slashes, lines at blanks.
ghost use Rattle.std.specs.Prelude.{◌≡◌, drop};
ghost use Rattle.std.specs.List.{prefix_len, position_or_len, before_first};

/// A kind of byte that separates the parts of a text.
pub trait Separator {
    ghost use Rattle.std.specs.Prelude.{◌≡◌, ℕ, Bool};

    ghost separates: { ℕ → Bool };

    /// Whether the byte is of this kind.
    fn separates(byte: u8) -> bool
        ensures { result ≡ separates byte };
}

/// The bytes from the first one on that doesn't separate. Nothing is allocated.
pub fn skip<S: Separator>(bytes: &[u8]) -> &[u8]
    ensures { result.now ≡ drop (prefix_len S.separates bytes.now) bytes.now }
{
    match bytes.iter().position(|b| !S::separates(*b)) {
        Some(i) => &bytes[i..],
        None => &[],
    }
}

/// The bytes before the first that separates, and those from it on. Nothing is allocated.
pub fn split_at<S: Separator>(bytes: &[u8]) -> (&[u8], &[u8])
    ensures before { result.0.now ≡ before_first S.separates bytes.now }
    ensures from { result.1.now ≡ drop (position_or_len S.separates bytes.now) bytes.now }
{
    match bytes.iter().position(|b| S::separates(*b)) {
        Some(i) => bytes.split_at(i),
        None => (bytes, &[]),
    }
}
