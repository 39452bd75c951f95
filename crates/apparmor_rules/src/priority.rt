//! The number of a priority.
ghost use Rattle.std.specs.Prelude.{◌≡◌, ◌==◌, not};
ghost use Rattle.std.specs.Char.{is_ascii_digit};
ghost use Rattle.std.specs.List.{list_all};
ghost use Rattle.rule_reader.specs.ReadWords.{after, leading};
ghost use Rattle.apparmor_rules.specs.Priorities.{priority_number, priority_of_text};

use apparmor_words::{after_sign, after_white};

/// The bytes from the first `=` on.
fn from_equals(bytes: &[u8]) -> &[u8]
    ensures { result.now ≡ after (λ b. not (b == 61)) bytes.now }
{
    let mut rest = bytes;
    while let [byte, more @ ..] = rest
        && *byte != b'='
    {
        rest = more;
    }
    rest
}

/// What follows `=`.
fn priority_number(bytes: &[u8]) -> &[u8]
    ensures { result.now ≡ priority_number bytes.now }
{
    match from_equals(bytes) {
        [_, number @ ..] => after_white(number),
        [] => after_white(&[]),
    }
}

/// Whether each of the digits at the front is 0.
fn are_zeros(bytes: &[u8]) -> bool
    ensures { result ≡ list_all (λ digit. digit == 48) (leading is_ascii_digit bytes.now) }
{
    let mut rest = bytes;
    while let [byte, more @ ..] = rest
        && byte.is_ascii_digit()
    {
        if *byte != b'0' {
            return false;
        }
        rest = more;
    }
    true
}

/// Whether a priority, as it is written, is 0.
pub(crate) fn is_zero(bytes: &[u8]) -> bool
    ensures { result ≡ ((priority_of_text bytes.now).size == 0) }
{
    are_zeros(after_sign(priority_number(bytes)))
}
