//! What a denial's mask asks.
ghost use Rattle.std.specs.Prelude.{◌≡◌};
ghost use Rattle.trace_audit.specs.Answers.{asked, asked_letter, asks, asks_nothing, has_x};

use names::{Permission, Perms};

/// The letter of this language that a mask's letter asks: to create or to remove is to write.
fn asked_letter(letter: u8) -> u8
    ensures { result ≡ asked_letter letter }
{
    match letter {
        b'c' | b'd' => b'w',
        _ => letter,
    }
}

/// Whether the mask asks this permission.
fn asks(mask: &[u8], permission: Permission) -> bool
    ensures { result ≡ asks mask.now permission }
{
    mask.iter()
        .any(|letter| permission.letter() == asked_letter(*letter))
}

/// The permissions that a mask asks.
pub(crate) fn asked(mask: &[u8]) -> Perms
    ensures { result ≡ asked mask.now }
{
    Perms::passing(|permission| asks(mask, permission))
}

/// Whether nothing is asked.
pub(crate) fn asks_nothing(ask: Perms) -> bool
    ensures { result ≡ asks_nothing ask }
{
    ask.is_empty()
}

/// Whether the mask asks for execution, which isn't judged.
pub(crate) fn has_x(mask: &[u8]) -> bool
    ensures { result ≡ has_x mask.now }
{
    mask.contains(&b'x')
}
