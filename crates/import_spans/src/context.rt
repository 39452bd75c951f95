//! Which profile a text is cut for, and how a rule of it was read.

use apparmor_rules::{Marks, RuleShape, Subject};

/// The profile that a text is cut for, and the subject. Profiles, children and hats are counted from 0 in the order of their
/// heads.
#[derive(Clone, Copy, Debug)]
pub struct Choice {
    pub subject: Subject,
    /// The number of the profile.
    pub profile: usize,
    /// The number of the outermost profile around it, or its own if it is in none.
    pub outermost: usize,
}

/// How a file rule was read.
#[derive(Clone, Copy, Debug)]
pub struct RuleReading {
    /// What decides whether it stays, and what that changes.
    pub shape: RuleShape,
    /// What is reported of its parts.
    pub marks: Marks,
}
