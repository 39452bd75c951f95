//! Whether an answer is the one that is expected.
ghost use Rattle.std.specs.Prelude.{◌≡◌};
ghost use Rattle.trace_test.specs.Expectations.{goes_on, is_answer, is_dots};

use names::skip;
use trace_script::{Blank, is_blank};

/// Whether an answer is the expected one, or begins with the text before a last word `...`.
pub(crate) fn is_answer(expected: &[u8], got: &[u8]) -> bool
    ensures { result ≡ is_answer expected.now got.now }
{
    is_dots(expected) || goes_on(expected, got)
}

/// Whether an answer has the bytes of a text up to blanks before a last word `...`, where it ends or goes on with a blank.
fn goes_on(expected: &[u8], got: &[u8]) -> bool
    ensures { result ≡ goes_on expected.now got.now }
{
    let mut text = expected;
    let mut answer = got;
    while let [byte, rest @ ..] = text {
        let is_open = is_blank(*byte) && is_dots(rest);
        let [first, more @ ..] = answer else {
            return is_open;
        };
        if is_open {
            return is_blank(*first);
        }
        if first != byte {
            return false;
        }
        text = rest;
        answer = more;
    }
    answer.is_empty()
}

/// Whether a text is `...`, perhaps after blanks.
fn is_dots(text: &[u8]) -> bool
    ensures { result ≡ is_dots text.now }
{
    skip::<Blank>(text) == b"...".as_slice()
}
