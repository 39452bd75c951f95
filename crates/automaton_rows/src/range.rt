//! Ranges of bytes with one target each. A row is such ranges up to byte 255.
ghost use Rattle.std.specs.Prelude.{◌≡◌, ℕ, ◌+◌, ◌<◌, ◌≤◌};
ghost use Rattle.automaton_rows.specs.Rows.{IsRowFrom, ends_at, target_in};

/// The bytes after the previous range of a row, up to `last`, which all lead to the state `target`.
#[derive(Clone, Copy, Debug)]
pub struct TargetRange {
    pub last: u8,
    pub target: u16,
}

/// The first range of the rest of a row that begins with the byte `from`.
#[inline]
pub fn head(row: &[TargetRange], from: u8) -> TargetRange
    requires { IsRowFrom from row.now }
    ensures here { from ≤ result.last }
    ensures last { result.last ≡ ends_at row.now }
    ensures target { (b : ℕ) → b ≤ result.last → target_in row.now b ≡ result.target }
{
    row[0]
}

/// The rest of a row after the byte `last`, which is in its first range.
#[inline]
pub fn rest_after(row: &[TargetRange], from: u8, last: u8) -> &[TargetRange]
    requires row { IsRowFrom from row.now }
    requires here { from ≤ last }
    requires within { last ≤ ends_at row.now }
    ensures row { last < 255 → IsRowFrom (last + 1) result.now }
    ensures targets { (b : ℕ) → last < b → target_in result.now b ≡ target_in row.now b }
{
    if row[0].last == last { &row[1..] } else { row }
}
