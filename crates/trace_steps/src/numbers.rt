//! Sessions and numbers, as scripts write them. Nothing is allocated.
ghost use Rattle.std.specs.Prelude.{◌≡◌};
ghost use Rattle.trace_steps.specs.StepScript.{session_of, number_of};
ghost use Rattle.trace_steps.specs.inner.Numbers.{with_digit};

/// The session of a digit from 1 to 9.
pub(crate) fn session_of(word: &[u8]) -> Option<u32>
    ensures { result ≡ session_of word.now }
{
    match word {
        [digit] if *digit > b'0' && *digit <= b'9' => Some(u32::from(*digit - b'0')),
        _ => None,
    }
}

/// The number of a word of decimal digits, if it fits.
pub(crate) fn number_of(word: &[u8]) -> Option<usize>
    ensures { result ≡ number_of word.now }
{
    if word.is_empty() {
        return None;
    }
    let mut number: usize = 0;
    for byte in word {
        number = with_digit(number, *byte)?;
    }
    Some(number)
}

/// A number with one more digit appended, if the byte is one and the number then fits.
fn with_digit(number: usize, byte: u8) -> Option<usize>
    ensures { result ≡ with_digit number byte }
{
    if !byte.is_ascii_digit() {
        return None;
    }
    number
        .checked_mul(10)?
        .checked_add(usize::from(byte - b'0'))
}
