/// A word and its place in a row. Place 0 is the first word after the count.
#[derive(Clone, Copy, Debug, PartialEq, Eq)]
pub struct Cell {
    pub place: usize,
    pub word: u64,
}
