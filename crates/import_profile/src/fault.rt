//! Why a text isn't imported.
ghost use Rattle.std.specs.Prelude.{◌≡◌, map, option_map};
ghost use Rattle.import_profile.specs.Faults.{fault_number, fault_place, fault_word, fault_names};
ghost use Rattle.import_profile.specs.Told.{import_fault_value};

use apparmor_words::{Stop, StopKind};
use import_scope::{ScopeFailure, ScopeFault, ScopeFaultKind};
use names::NoMemory;

/// Why a text isn't imported. A place is a byte offset in the text.
#[derive(Debug, Drop)]
pub enum ImportFault<'t> {
    /// The grammar doesn't allow what follows.
    Syntax { place: usize },
    /// An include: the text is not flattened.
    Include { place: usize },
    /// A word, a byte or a flag that is not supported.
    LeftOut { place: usize, word: &'t [u8] },
    /// Letters that are no permissions, or not allowed in this rule.
    Permissions { place: usize },
    /// A path needs a variable of this name, which isn't declared.
    Undefined { place: usize, name: Vec<u8> },
    /// A path needs a variable of this name, which needs itself.
    Cycle { place: usize, name: Vec<u8> },
    /// A variable is declared twice, or added to before it is declared.
    Declared { place: usize },
    /// A name that no profile can have.
    Name { place: usize },
    /// The profile has more than 1,024 rules.
    TooManyRules { place: usize },
    /// A path, or the list of a variable that it needs, is too long.
    TooLong { place: usize },
    /// The request doesn't match exactly one profile of the text. Lists the full names of all.
    Which { names: Vec<Vec<u8>> },
    /// The first part of the text where something changes for the subject, though nothing may.
    NotExact { place: usize },
    /// The text has more than 1,024 variables, or the texts of its paths and the lists of its variables are more than 16 MB together.
    TooMuch { place: usize },
}

/// Why there is no import.
#[derive(Debug, Drop)]
pub enum ImportFailure<'t> {
    /// An allocation failed; this says nothing about the text.
    NoMemory,
    /// The text is refused.
    At(ImportFault<'t>),
}

impl<'t> ImportFault<'t> {
    /// Returns the number by which it is reported, 1 to 13.
    pub fn number(&self) -> u8
        ensures { result ≡ fault_number (import_fault_value self.now) }
    {
        match self {
            ImportFault::Syntax { .. } => 1,
            ImportFault::Include { .. } => 2,
            ImportFault::LeftOut { .. } => 3,
            ImportFault::Permissions { .. } => 4,
            ImportFault::Undefined { .. } => 5,
            ImportFault::Cycle { .. } => 6,
            ImportFault::Declared { .. } => 7,
            ImportFault::Name { .. } => 8,
            ImportFault::TooManyRules { .. } => 9,
            ImportFault::TooLong { .. } => 10,
            ImportFault::Which { .. } => 11,
            ImportFault::NotExact { .. } => 12,
            ImportFault::TooMuch { .. } => 13,
        }
    }

    /// Returns the byte offset of its place in the text, if it has one.
    pub fn place(&self) -> Option<usize>
        ensures { result ≡ fault_place (import_fault_value self.now) }
    {
        match self {
            ImportFault::Syntax { place }
            | ImportFault::Include { place }
            | ImportFault::LeftOut { place, .. }
            | ImportFault::Permissions { place }
            | ImportFault::Undefined { place, .. }
            | ImportFault::Cycle { place, .. }
            | ImportFault::Declared { place }
            | ImportFault::Name { place }
            | ImportFault::TooManyRules { place }
            | ImportFault::TooLong { place }
            | ImportFault::NotExact { place }
            | ImportFault::TooMuch { place } => Some(*place),
            ImportFault::Which { .. } => None,
        }
    }

    /// Returns the word or the variable's name that it is about, if any.
    pub fn word(&self) -> Option<&[u8]>
        ensures { option_map (λ word. word.now) result ≡ fault_word (import_fault_value self.now) }
    {
        match self {
            ImportFault::LeftOut { word, .. } => Some(word),
            ImportFault::Undefined { name, .. } => Some(name),
            ImportFault::Cycle { name, .. } => Some(name),
            _ => None,
        }
    }

    /// Returns the names that it lists.
    pub fn names(&self) -> &[Vec<u8>]
        ensures { map (λ name. name.items) result.now ≡ fault_names (import_fault_value self.now) }
    {
        match self {
            ImportFault::Which { names } => names.as_slice(),
            _ => &[],
        }
    }
}

impl<'t> From<NoMemory> for ImportFailure<'t> {
    ghost use Rattle.import_profile.specs.declared.fault.ImportFailure.TheVariants as failures;

    ghost from_gives = { λ _ failure. failure ≡ failures.NoMemory };

    fn from(_refused: NoMemory) -> ImportFailure<'t> {
        ImportFailure::NoMemory
    }
}
