//! States of three automata.

/// A state of each of three automata, which run at once.
#[derive(Clone, Copy, Debug, PartialEq, Eq, Hash)]
pub struct States {
    pub first: u32,
    pub second: u32,
    pub third: u32,
}
