//! Where an assignment to a variable begins, and what separates its values.
ghost use Rattle.std.specs.Prelude.{◌≡◌, option_map};
ghost use Rattle.apparmor_words.specs.Assignments.{past_use, is_operator, is_assignment, is_separator, past_separators, line_ends};

use crate::bytes::is_space;
use crate::condition::after_white;
use crate::words::cut_word;

/// Returns what is left after `@{NAME}`, if it is at the front.
pub fn after_use(bytes: &[u8]) -> Option<&[u8]>
    ensures { option_map (λ x. x.now) result ≡ past_use bytes.now }
{
    let name = bytes.strip_prefix(b"@{")?;
    match cut_word(name)? {
        (_, [b'}', rest @ ..]) => Some(rest),
        _ => None,
    }
}

fn is_operator(bytes: &[u8]) -> bool
    ensures { result ≡ is_operator bytes.now }
{
    bytes.starts_with(b"=") || bytes.starts_with(b"+=")
}

/// Whether an assignment begins here.
pub fn is_assignment(bytes: &[u8]) -> bool
    ensures { result ≡ is_assignment bytes.now }
{
    match after_use(bytes) {
        Some(rest) => is_operator(after_white(rest)),
        None => false,
    }
}

/// Whether the byte is a space, a tab or a CR.
fn is_separator(byte: u8) -> bool
    ensures { result ≡ is_separator byte }
{
    is_space(byte) || byte == b'\r'
}

/// Returns what is left after the spaces, the tabs, the CRs and the escaped line feeds that separate values.
pub fn after_separators(bytes: &[u8]) -> &[u8]
    ensures { result.now ≡ past_separators bytes.now }
{
    let mut rest = bytes;
    loop {
        rest = match rest {
            [byte, more @ ..] if is_separator(*byte) => more,
            [b'\\', b'\n', more @ ..] => more,
            _ => return rest,
        };
    }
}

/// Whether the line ends here.
pub fn line_ends(bytes: &[u8]) -> bool
    ensures { result ≡ line_ends bytes.now }
{
    matches!(bytes, [] | [b'\n', ..])
}
