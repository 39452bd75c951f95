//! Assignments to variables.

use crate::part::PartKind;
use crate::reader::{Reader, failure_here};
use apparmor_words::{Failure, StopKind, after_separators, after_use, after_white, line_ends};

impl<'t> Reader<'t> {
    ghost use Rattle.std.specs.Prelude.{suc, length};
    ghost use Rattle.apparmor_text.specs.Assignments.{separators_part, values_at, values_part, operator_part, assignment_part};
    ghost use Rattle.apparmor_words.specs.Gives.{Gives};
    ghost use Rattle.std.specs.Prelude.{Ok};

    /// What separates values, if any of it is here.
    fn separators(&mut self) -> Result<(), Failure<'t>>
        ensures { Gives (λ _. self.new) result (Ok (separators_part self.old)) }
    {
        self.take_to(PartKind::Separator, after_separators(self.rest()))
    }

    /// The values up to the line's end.
    fn more_values(&mut self) -> Result<(), Failure<'t>>
        ensures { Gives (λ _. self.new) result (values_at (suc (length self.old.rest)) self.old) }
    {
        loop {
            self.separators()?;
            if line_ends(self.rest()) {
                return Ok(());
            }
            self.word(PartKind::Value)?;
        }
    }

    /// One value or more.
    #[tactic(auto, unfolding(crate::specs::Assignments::values_part))]
    fn values(&mut self) -> Result<(), Failure<'t>>
        ensures { Gives (λ _. self.new) result (values_part self.old) }
    {
        self.separators()?;
        self.word(PartKind::Value)?;
        self.more_values()
    }

    /// `=` or `+=`, one of which is here.
    fn operator(&mut self) -> Result<(), Failure<'t>>
        ensures { Gives (λ _. self.new) result (Ok (operator_part self.old)) }
    {
        if self.rest().starts_with(b"=") {
            self.take(PartKind::Equals, 1)
        } else {
            self.take(PartKind::Adds, 2)
        }
    }

    /// An assignment, which is here.
    #[tactic(auto, unfolding(crate::specs::Assignments::assignment_part))]
    pub(crate) fn assignment(&mut self) -> Result<(), Failure<'t>>
        ensures { Gives (λ _. self.new) result (assignment_part self.old) }
    {
        let Some(rest) = after_use(self.rest()) else {
            return Err(failure_here(StopKind::Syntax, self.rest()));
        };
        self.take_to(PartKind::Variable, rest)?;
        self.take_to(PartKind::Blank, after_white(self.rest()))?;
        self.operator()?;
        self.values()
    }
}
