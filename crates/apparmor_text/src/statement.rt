//! Statements as parts.

use crate::part::PartKind;
use crate::reader::Reader;
use apparmor_words::{Failure, after_boolean, after_statement};

impl<'t> Reader<'t> {
    ghost use Rattle.apparmor_text.specs.Statements.{statement_part, boolean_part};
    ghost use Rattle.apparmor_words.specs.Gives.{Gives};

    /// A statement.
    pub(crate) fn statement(&mut self) -> Result<(), Failure<'t>>
        ensures { Gives (λ _. self.new) result (statement_part self.old) }
    {
        let rest = after_statement(self.rest())?;
        self.take_to(PartKind::Statement, rest)
    }

    /// `$NAME = WORD`, whose `$` is here.
    pub(crate) fn boolean(&mut self) -> Result<(), Failure<'t>>
        ensures { Gives (λ _. self.new) result (boolean_part self.old) }
    {
        let rest = after_boolean(self.rest().get(1..).unwrap_or_default())?;
        self.take_to(PartKind::Statement, rest)
    }
}
