//! The limits of paths, and of changes.

/// The longest path, in bytes: limits.h's PATH_MAX without the byte 0 that closes a path in C.
pub const LONGEST_PATH: usize = 4095;

/// The longest component of a path, in bytes: limits.h's NAME_MAX.
pub const LONGEST_COMPONENT: usize = 255;

/// The longest text of a symbolic link, in bytes (our choice).
pub const LONGEST_LINK_TEXT: usize = 1023;

/// The most changes of a tree, and of a policy, that are counted (our choice). Making that many would take centuries.
pub const MOST_CHANGES: u64 = (1 << 60) - 1;
