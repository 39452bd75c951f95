ghost use Rattle.std.specs.Prelude.{◌≡◌};

use crate::byte_bits::ByteBits;
use std::marker::Model;

/// The bytes from `first` to `last`, both among them.
#[derive(Clone, Copy, Debug, PartialEq, Eq)]
pub struct ByteRange {
    pub first: u8,
    pub last: u8,
}

impl ByteRange {
    ghost use Rattle.std.specs.Prelude.{◌≡◌};
    ghost use Rattle.rule_globs.specs.Glob.{single};

    /// The range of one byte.
    pub fn single(byte: u8) -> ByteRange
        ensures { result ≡ single byte }
    {
        ByteRange {
            first: byte,
            last: byte,
        }
    }
}

/// A class of bytes: one that some range has, or, where it is negated, one that no range has. To contracts it is a
/// `ClassValue`: whether it is negated, and its ranges.
#[derive(Debug, Drop)]
pub struct Class {
    negated: bool,
    // In the order written; a single byte is a range of one.
    ranges: Vec<ByteRange>,
    // The bytes of the ranges, so that the cost of matching a name doesn't depend on the number of ranges.
    listed: ByteBits,
}

impl Model for Class {
    ghost use Rattle.std.specs.Prelude.{◌≡◌, ℕ, ◌<◌};
    ghost use Rattle.rule_globs.specs.Glob.{ClassValue, in_ranges};
    ghost use Rattle.rule_globs.specs.inner.ByteBits.{has};

    ghost Value = { ClassValue };

    ghost view = { λ c. record { negated = c.negated; ranges = c.ranges.items } };

    ghost invariant = { λ c. (b : ℕ) → b < 256 → has c.listed b ≡ in_ranges c.ranges.items b };
}

impl Class {
    ghost use Rattle.rule_globs.specs.Glob.{ClassValue, fits, class};

    /// The class of these ranges, in the order written; a single byte is a range of one. The time grows with the number of
    /// ranges.
    pub fn new(negated: bool, ranges: Vec<ByteRange>) -> Class
        ensures { result ≡ record { negated = negated; ranges = ranges.items } }
    {
        let listed = ByteBits::of(&ranges);
        Class {
            negated,
            ranges,
            listed,
        }
    }

    /// Whether the class takes the bytes that no range has.
    pub fn is_negated(&self) -> bool
        ensures { result ≡ self.now.negated }
    {
        self.negated
    }

    /// The ranges, in the order written.
    pub fn ranges(&self) -> &[ByteRange]
        ensures { result.now ≡ self.now.ranges }
    {
        &self.ranges
    }

    /// Whether the class takes the byte, in constant time. No class takes byte 0; a slash is a byte like any other here.
    pub fn takes(&self, byte: u8) -> bool
        ensures { result ≡ fits (class self.now.negated self.now.ranges) byte }
    {
        byte != 0 && self.listed.contains(byte) != self.negated
    }
}

/// A run of stars: any number of bytes.
#[derive(Clone, Copy, Debug, PartialEq, Eq)]
pub struct Stars {
    /// Whether the bytes may have slashes among them: two stars or more.
    pub crosses_slashes: bool,
    /// Whether the run takes at least one byte, the first of which isn't a slash. This holds where the run is written
    /// directly after a plain `/` and directly before a plain `/` or the end of the rule's path.
    pub strict: bool,
}

impl Stars {
    ghost use Rattle.rule_globs.specs.Glob.{fits};
    ghost use Rattle.rule_globs.specs.Meaning.{in_stars};

    /// Whether the byte can be one of those that the stars take. In addition, the first byte of a strict run isn't a slash.
    pub fn takes(self, byte: u8) -> bool
        ensures { result ≡ fits (in_stars self.crosses_slashes) byte }
    {
        byte != 0 && (self.crosses_slashes || byte != b'/')
    }
}

/// An item of a rule's path (apparmor.d(5), "Globbing"). No item takes byte 0.
#[derive(Debug, Drop)]
pub enum Item {
    /// That byte, as it is.
    Byte(u8),
    /// `?`: one byte but a slash.
    AnyByte,
    /// `[abc]`, `[a-c]`, `[^a-c]`: one byte of a class.
    Class(Class),
    /// `*`, `**`: any number of bytes.
    Stars(Stars),
    /// `{ab,cd}`: one of its alternatives, each a list of items.
    Group(Vec<Vec<Item>>),
}
