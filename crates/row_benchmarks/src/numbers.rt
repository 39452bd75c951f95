//! The names of numbered files: a slash, `f` and seven digits.

/// Such a name.
pub(crate) type NumberedName = [u8; 9];

// The number of digits.
const DIGITS: usize = 7;

/// The name of a number.
pub(crate) fn name_of_number(number: usize) -> NumberedName {
    let mut name = *b"/f0000000";
    let mut rest = number;
    for place in 0..DIGITS {
        name[name.len() - 1 - place] = b'0' + (rest % 10) as u8;
        rest /= 10;
    }
    name
}

/// Turns the name of a number into that of the next one. Mostly this sets one digit, so that it takes little of the time of an
/// attempt to reach the name.
pub(crate) fn count_up(name: &mut NumberedName) {
    for place in 0..DIGITS {
        let digit = &mut name[name.len() - 1 - place];
        if *digit < b'9' {
            *digit += 1;
            return;
        }
        *digit = b'0';
    }
}
