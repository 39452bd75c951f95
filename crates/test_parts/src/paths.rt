//! The paths that are walked and changed.

// Each component is a slash and a letter.
const MOST_COMPONENTS: usize = 4;

/// A path of at most four components, each of which is one of five letters. They are numbered: the root's path is 0, and those of
/// the entries of the directory of path n are 5n + 1 to 5n + 5.
#[derive(Clone, Copy)]
pub struct NumberedPath {
    bytes: [u8; 2 * MOST_COMPONENTS],
    components: usize,
}

impl NumberedPath {
    /// The path of this number.
    pub fn new(number: usize) -> NumberedPath {
        let mut bytes = [b'/'; 2 * MOST_COMPONENTS];
        let mut components = 0;
        let mut left = number;
        // From the last component to the first.
        for place in (0..MOST_COMPONENTS).rev() {
            if left == 0 {
                break;
            }
            bytes[2 * place + 1] = b'a' + ((left - 1) % 5) as u8;
            components = MOST_COMPONENTS - place;
            left = (left - 1) / 5;
        }
        NumberedPath { bytes, components }
    }

    /// Its text.
    pub fn as_bytes(&self) -> &[u8] {
        if self.components == 0 {
            return b"/";
        }
        &self.bytes[2 * MOST_COMPONENTS.saturating_sub(self.components)..]
    }
}
