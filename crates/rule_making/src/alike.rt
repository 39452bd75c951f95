//! Where AppArmor and this language read the text of a path in two ways.
ghost use Rattle.std.specs.Prelude.{◌≡◌};
ghost use Rattle.rule_making.specs.Alike.{outside_at, member_at, first_at, next_spot, is_read_alike};

/// Between two bytes of a path's text.
#[derive(Clone, Copy)]
pub(crate) enum Spot {
    /// Outside of classes.
    Outside,
    /// The same, directly after a run of stars.
    BehindStars,
    /// Directly after the opening bracket of a class.
    Opened,
    /// Directly after `[^`.
    Negated,
    /// In a class, after what can't be the first byte of a range: a range, or a dash at the start.
    Closed,
    /// In a class, after a member, which may be the first byte of a range.
    Member,
    /// In a class, after the dash of a range.
    Dash,
}

/// After a byte outside of classes.
fn outside_at(escaped: bool, byte: u8) -> Option<Spot>
    ensures { result ≡ outside_at escaped byte }
{
    match byte {
        _ if escaped => Some(Spot::Outside),
        b']' => None,
        b'[' => Some(Spot::Opened),
        b'*' => Some(Spot::BehindStars),
        _ => Some(Spot::Outside),
    }
}

/// After a byte of a class that is none of its marks.
fn member_at(behind: Spot, escaped: bool, byte: u8) -> Option<Spot>
    ensures { result ≡ member_at behind escaped byte }
{
    match byte {
        b'-' => None,
        b'*' | b'?' if !escaped => None,
        _ => Some(behind),
    }
}

/// After the first byte of a class.
fn first_at(escaped: bool, byte: u8) -> Option<Spot>
    ensures { result ≡ first_at escaped byte }
{
    match byte {
        b']' if !escaped => Some(Spot::Outside),
        b'-' => Some(Spot::Closed),
        _ => member_at(Spot::Member, escaped, byte),
    }
}

/// After one more byte, which follows a backslash or not. None where the two readings differ.
fn next_spot(spot: Spot, escaped: bool, byte: u8) -> Option<Spot>
    ensures { result ≡ next_spot spot escaped byte }
{
    match (spot, byte) {
        (Spot::BehindStars, b'/') if escaped => None,
        (Spot::Outside | Spot::BehindStars, _) => outside_at(escaped, byte),
        (Spot::Opened, b'^') if escaped => None,
        (Spot::Opened, b'^') => Some(Spot::Negated),
        (Spot::Opened | Spot::Negated, _) => first_at(escaped, byte),
        (Spot::Dash, b']') if !escaped => None,
        (Spot::Dash, _) => member_at(Spot::Closed, escaped, byte),
        (Spot::Closed | Spot::Member, b']') if !escaped => Some(Spot::Outside),
        (Spot::Member, b'-') if !escaped => Some(Spot::Dash),
        (Spot::Closed | Spot::Member, _) => member_at(Spot::Member, escaped, byte),
    }
}

/// Whether AppArmor reads a path's text as this language does, where both read it. They differ where, in a class, `*` or `?` has
/// no backslash; where `\-` isn't first, or is first and before a dash; where `\^` is directly after the bracket; where a dash
/// without backslash is neither first nor the mark of a range; and outside of classes at `]` without backslash, and where a run
/// of stars is directly before `\/`.
pub fn is_read_alike(text: &[u8]) -> bool
    ensures { result ≡ is_read_alike text.now }
{
    let mut spot = Spot::Outside;
    let mut escaped = false;
    for byte in text {
        if !escaped && *byte == b'\\' {
            escaped = true;
            continue;
        }
        let Some(next) = next_spot(spot, escaped, *byte) else {
            return false;
        };
        spot = next;
        escaped = false;
    }
    true
}
