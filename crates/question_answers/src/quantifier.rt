//! Which names are asked for.

/// Which of the names that answer a question are listed.
#[derive(Clone, Copy, Debug, PartialEq, Eq)]
pub enum Witnesses {
    /// The least one.
    Least,
    /// For each rule that decides, the least one that it decides for.
    EachRule,
}

/// Which of the names that a pattern matches are to be allowed what is asked.
#[derive(Clone, Copy, Debug, PartialEq, Eq)]
pub enum Quantifier {
    /// Some name: the least one is found, or the least one for each rule that is the first to allow something that is asked.
    Any(Witnesses),
    /// Each name: the least one that isn't is found.
    All,
}
