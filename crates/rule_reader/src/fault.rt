ghost use Rattle.std.specs.Prelude.{◌≡◌, Some};
ghost use Rattle.rule_reader.specs.FaultNumber.{fault_number, fault_offset};
ghost use Rattle.rule_reader.specs.FaultText.{fault_text};

use std::error::Error;
use std::fmt;

/// Why a text is no profile. An offset counts the bytes before the place of the fault. Prints as a sentence.
#[derive(Clone, Copy, Debug, PartialEq, Eq)]
pub enum ReadFault {
    /// The grammar doesn't allow what is here.
    Syntax { offset: usize },
    /// A word that file rules have and that isn't supported: the `len` bytes from `offset` on.
    LeftOut { offset: usize, len: usize },
    /// A word where permissions are expected.
    Permission { offset: usize },
    /// A rule without permissions.
    EmptyPermissions { offset: usize },
    /// A path that doesn't begin with `/`.
    NotAbsolute { offset: usize },
    /// A class that has no members, a reversed range or no end.
    Class { offset: usize },
    /// A brace without its partner.
    Group { offset: usize },
    /// Groups that are nested too deep.
    Depth { offset: usize },
    /// One rule too many begins here.
    TooManyRules { offset: usize },
    /// One item too many begins here.
    TooManyItems { offset: usize },
    /// Out of memory; this says nothing about the text.
    NoMemory,
    /// A word with the letters of append and of write, which conflict.
    Conflict { offset: usize },
}

impl ReadFault {
    /// The number of the kind of fault, 1 to 12.
    pub fn number(self) -> u16
        ensures { result ≡ fault_number self }
    {
        match self {
            ReadFault::Syntax { .. } => 1,
            ReadFault::LeftOut { .. } => 2,
            ReadFault::Permission { .. } => 3,
            ReadFault::EmptyPermissions { .. } => 4,
            ReadFault::NotAbsolute { .. } => 5,
            ReadFault::Class { .. } => 6,
            ReadFault::Group { .. } => 7,
            ReadFault::Depth { .. } => 8,
            ReadFault::TooManyRules { .. } => 9,
            ReadFault::TooManyItems { .. } => 10,
            ReadFault::NoMemory => 11,
            ReadFault::Conflict { .. } => 12,
        }
    }

    /// The place of the fault in the text. None when out of memory.
    pub fn offset(self) -> Option<usize>
        ensures { result ≡ fault_offset self }
    {
        match self {
            ReadFault::Syntax { offset }
            | ReadFault::LeftOut { offset, .. }
            | ReadFault::Permission { offset }
            | ReadFault::EmptyPermissions { offset }
            | ReadFault::NotAbsolute { offset }
            | ReadFault::Class { offset }
            | ReadFault::Group { offset }
            | ReadFault::Depth { offset }
            | ReadFault::TooManyRules { offset }
            | ReadFault::TooManyItems { offset }
            | ReadFault::Conflict { offset } => Some(offset),
            ReadFault::NoMemory => None,
        }
    }
}

impl fmt::Display for ReadFault {
    ghost output = { λ f. Some (fault_text f) };

    fn fmt<W: fmt::Write>(&self, f: &mut fmt::Formatter<W>) -> fmt::Result {
        match self {
            ReadFault::Syntax { offset } => write!(f, "syntax error at byte {offset}"),
            ReadFault::LeftOut { offset, .. } => {
                write!(f, "not supported: what is at byte {offset}")
            }
            ReadFault::Permission { offset } => write!(f, "no permissions at byte {offset}"),
            ReadFault::EmptyPermissions { offset } => {
                write!(f, "permissions are missing at byte {offset}")
            }
            ReadFault::NotAbsolute { offset } => {
                write!(f, "the path at byte {offset} isn't absolute")
            }
            ReadFault::Class { offset } => write!(f, "bad class at byte {offset}"),
            ReadFault::Group { offset } => write!(f, "unbalanced brace at byte {offset}"),
            ReadFault::Depth { offset } => write!(f, "groups nested too deep at byte {offset}"),
            ReadFault::TooManyRules { offset } => write!(f, "too many rules at byte {offset}"),
            ReadFault::TooManyItems { offset } => write!(f, "too many items at byte {offset}"),
            ReadFault::NoMemory => write!(f, "memory allocation failed"),
            ReadFault::Conflict { offset } => {
                write!(f, "append and write conflict at byte {offset}")
            }
        }
    }
}

impl Error for ReadFault {}
