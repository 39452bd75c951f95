//! The parts of lines.
ghost use Rattle.std.specs.Prelude.{◌≡◌, ◌++◌, OnOk, flat_map, length};
ghost use Rattle.rule_explain.specs.Explanations.{rule_place, text_of_rule};
ghost use Rattle.rule_profile.specs.Profile.{profile_value};
ghost use Rattle.rule_profile.specs.RuleSpans.{profile_spans};
ghost use Rattle.trace_lint.specs.Lines.{kind_of, letter_text};
ghost use Rattle.trace_lint.specs.inner.Found.{AreNumbers, IsNumber, or_place};

use names::{NoMemory, Permission, RuleKind};
use rule_explain::rule_place;
use rule_profile::Profile;
use rule_writer::write_rule;
use std::alloc::Global;

/// A profile and the text that it was read from.
#[derive(Clone, Copy)]
pub(crate) struct Linted<'a> {
    pub(crate) text: &'a [u8],
    pub(crate) profile: &'a Profile,
}

/// Appends bytes.
pub(crate) fn put(line: &mut Vec<u8>, bytes: &[u8]) -> Result<(), NoMemory>
    ensures { OnOk result (line.new.items ≡ line.old.items ++ bytes.now) }
{
    match line.extend_from_slice(bytes) {
        Ok(()) => Ok(()),
        Err(_) => Err(NoMemory),
    }
}

impl<'a> Linted<'a> {
    /// The kind of the rule with this number.
    pub(crate) fn kind(&self, number: u16) -> RuleKind
        requires { IsNumber (length (profile_value self.now.profile.now).rules) number }
        ensures { result ≡ kind_of (profile_value self.now.profile.now).rules number }
    {
        self.profile.rules()[usize::from(number) - 1].kind()
    }

    /// Appends the place of the rule with this number.
    pub(crate) fn put_place(
        &self,
        line: &mut Vec<u8>,
        alloc: Global,
        number: u16,
    ) -> Result<(), NoMemory>
        requires { IsNumber (length (profile_value self.now.profile.now).rules) number }
        ensures { OnOk result (line.new.items
            ≡ line.old.items ++ rule_place self.now.text.now (profile_spans self.now.profile.now) number) }
    {
        let place = rule_place(alloc, self.text, self.profile, number)?;
        put(line, place.as_bytes())
    }

    /// Appends the canonical text of the rule with this number.
    pub(crate) fn put_rule(
        &self,
        line: &mut Vec<u8>,
        alloc: Global,
        number: u16,
    ) -> Result<(), NoMemory>
        requires { IsNumber (length (profile_value self.now.profile.now).rules) number }
        ensures { OnOk result (line.new.items ≡ line.old.items ++ text_of_rule (profile_value self.now.profile.now).rules number) }
    {
        let rule = &self.profile.rules()[usize::from(number) - 1];
        put(line, &write_rule(alloc, rule)?)
    }

    /// Appends the places of other rules, each after an `or`.
    pub(crate) fn put_others(
        &self,
        line: &mut Vec<u8>,
        alloc: Global,
        numbers: &[u16],
    ) -> Result<(), NoMemory>
        requires { AreNumbers (length (profile_value self.now.profile.now).rules) numbers.now }
        ensures { OnOk result (line.new.items ≡ line.old.items
            ++ flat_map (or_place self.now.text.now (profile_spans self.now.profile.now)) numbers.now) }
    {
        for number in numbers {
            put(line, b" or ")?;
            self.put_place(line, alloc, *number)?;
        }
        Ok(())
    }
}

/// Appends what comes before what is said of a letter, or nothing where it is said of all of a rule.
pub(crate) fn put_letter(line: &mut Vec<u8>, letter: Option<Permission>) -> Result<(), NoMemory>
    ensures { OnOk result (line.new.items ≡ line.old.items ++ letter_text letter) }
{
    match letter {
        Some(letter) => {
            put(line, &[letter.letter()])?;
            put(line, b" ")
        }
        None => Ok(()),
    }
}
