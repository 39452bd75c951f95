//! What comes before the rules of a profile, of a child or of a hat.

use crate::part::PartKind;
use crate::reader::{Reader, failure_here, within_quotes};
use apparmor_words::{
    Failure, StopKind, after_condition, after_parentheses, is_path, is_word, past_word,
    unknown_flag,
};

impl<'t> Reader<'t> {
    ghost use Rattle.apparmor_text.specs.Headers.{flags_to, condition_part, attachment_part, head_rest, named_head};
    ghost use Rattle.apparmor_text.specs.Headers.{profile_head, hat_head};
    ghost use Rattle.apparmor_text.specs.Headers.{caret_head};
    ghost use Rattle.apparmor_words.specs.Gives.{Gives};

    /// The flags up to these bytes, each of which must be known.
    fn flags_to(&mut self, rest: &[u8]) -> Result<(), Failure<'t>>
        ensures { Gives (λ _. self.new) result (flags_to rest.now self.old) }
    {
        let bytes = self.rest();
        let (list, _) = bytes.split_at(bytes.len().saturating_sub(rest.len()));
        match unknown_flag(list) {
            None => self.take_to(PartKind::Flags, rest),
            Some(word) => Err(failure_here(StopKind::LeftOut(word), bytes)),
        }
    }

    /// Extended attributes or flags, if they are here.
    fn condition(&mut self) -> Result<(), Failure<'t>>
        ensures { Gives (λ _. self.new) result (condition_part self.old) }
    {
        let bytes = self.rest();
        if is_word(b"xattrs", bytes) {
            self.take_to(PartKind::Xattrs, after_condition(past_word(bytes)?)?)
        } else if is_word(b"flags", bytes) {
            self.flags_to(after_condition(past_word(bytes)?)?)
        } else if bytes.starts_with(b"(") {
            self.flags_to(after_parentheses(bytes)?)
        } else {
            Ok(())
        }
    }

    /// An attachment, if one is here. One that begins with a colon would be the name of a namespace.
    fn attachment(&mut self) -> Result<(), Failure<'t>>
        ensures { Gives (λ _. self.new) result (attachment_part self.old) }
    {
        let inside = within_quotes(self.rest());
        if is_path(self.rest()) {
            self.word(PartKind::Attachment)
        } else if inside.starts_with(b":") {
            Err(failure_here(StopKind::LeftOut(b":"), inside))
        } else {
            Ok(())
        }
    }

    /// What follows the name and the attachment, up to the brace.
    #[tactic(auto, unfolding(crate::specs::Headers::head_rest))]
    fn head_rest(&mut self) -> Result<(), Failure<'t>>
        ensures { Gives (λ _. self.new) result (head_rest self.old) }
    {
        self.condition()?;
        self.blank()?;
        self.condition()?;
        self.blank()?;
        self.literal(PartKind::Open, b"{")
    }

    /// A name and what follows it, up to the brace.
    #[tactic(auto, unfolding(crate::specs::Headers::named_head))]
    pub(crate) fn named_head(&mut self) -> Result<(), Failure<'t>>
        ensures { Gives (λ _. self.new) result (named_head self.old) }
    {
        self.name(PartKind::Name)?;
        self.blank()?;
        self.attachment()?;
        self.blank()?;
        self.head_rest()
    }

    /// `profile NAME`, whose first word is here.
    pub(crate) fn profile_head(&mut self) -> Result<(), Failure<'t>>
        ensures { Gives (λ _. self.new) result (profile_head self.old) }
    {
        self.take(PartKind::Profile, 7)?;
        self.blank()?;
        self.named_head()
    }

    /// `hat NAME`, whose first word is here.
    pub(crate) fn hat_head(&mut self) -> Result<(), Failure<'t>>
        ensures { Gives (λ _. self.new) result (hat_head self.old) }
    {
        self.take(PartKind::Hat, 3)?;
        self.blank()?;
        self.named_head()
    }

    /// `^NAME`, whose first byte is here.
    pub(crate) fn caret_head(&mut self) -> Result<(), Failure<'t>>
        ensures { Gives (λ _. self.new) result (caret_head self.old) }
    {
        self.take(PartKind::Hat, 1)?;
        self.named_head()
    }
}
