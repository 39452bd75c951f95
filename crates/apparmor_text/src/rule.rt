//! File rules, and what else begins with a rule's qualifiers.
ghost use Rattle.std.specs.Prelude.{◌≡◌, false, length};
ghost use Rattle.rule_reader.specs.TextBytes.{begins, is_arrow};
ghost use Rattle.rule_reader.specs.ReadWords.{word};
ghost use Rattle.apparmor_words.specs.Steps.{left_out};
ghost use Rattle.apparmor_words.specs.Stops.{stop_value};
ghost use Rattle.apparmor_text.specs.Rules.{comes_comma, is_all_rule, permissions_word, begins_path_word};
ghost use Rattle.apparmor_words.specs.Words.{blank_at};
ghost use Rattle.apparmor_words.specs.Gives.{Reads};
ghost use Rattle.apparmor_text.specs.Rules.{links_and_runs, runs_apart};

use crate::part::{ItemKind, Part, PartKind};
use crate::reader::{Reader, failure_here};
use apparmor_words::{
    Failure, Letters, Stop, StopKind, after_blank, after_priority, after_word, fault_here,
    is_raised, is_statement, is_word, letter_word, letters_of,
};
use names::Permission;

/// The word here is not supported.
pub(crate) fn word_left_out(bytes: &[u8]) -> Stop<'_>
    ensures { stop_value result ≡ record { kind = left_out (word bytes.now); left = length bytes.now } }
{
    fault_here(StopKind::LeftOut(letter_word(bytes)), bytes)
}

/// Whether an arrow is here.
fn is_arrow(bytes: &[u8]) -> bool
    ensures { result ≡ is_arrow bytes.now }
{
    bytes.starts_with(b"->")
}

/// Whether blanks and then a comma are here.
fn comes_comma(bytes: &[u8]) -> bool
    ensures { result ≡ comes_comma (blank_at false bytes.now) }
{
    match after_blank(bytes) {
        Ok(rest) => rest.starts_with(b","),
        Err(_) => false,
    }
}

/// Whether a rule `all` is here: the word by itself, which isn't supported.
fn is_all_rule(bytes: &[u8]) -> bool
    ensures { result ≡ is_all_rule bytes.now }
{
    is_word(b"all", bytes) && comes_comma(bytes.get(3..).unwrap_or_default())
}

/// The permissions here, of a rule that denies or not. Letters that are no permissions are the fault `unknown`.
fn permissions_word<'t>(
    denies: bool,
    unknown: Stop<'t>,
    bytes: &'t [u8],
) -> Result<Letters, Stop<'t>>
    ensures { Reads (λ x. x) result (permissions_word denies (stop_value unknown.entry) bytes.now) }
{
    let word = letter_word(bytes);
    if word.is_empty() {
        return Err(fault_here(StopKind::Syntax, bytes));
    }
    match letters_of(word) {
        None => Err(unknown),
        Some(letters) if letters.are_fitting(denies) => Ok(letters),
        Some(_) => Err(fault_here(StopKind::Permissions, bytes)),
    }
}

/// Whether a rule of these letters can have no arrow: it links, and it runs programs.
fn links_and_runs(letters: Letters) -> bool
    ensures { result ≡ links_and_runs letters }
{
    letters.perms.contains(Permission::Link) && letters.exec.is_some()
}

/// Whether a part is letters with an exec mode that isn't `x` alone and has no `i`.
fn runs_apart(part: &Part<'_>) -> bool
    ensures { result ≡ runs_apart part.now }
{
    if !matches!(part.kind(), PartKind::Permissions) {
        return false;
    }
    let Some(letters) = letters_of(part.bytes()) else {
        return false;
    };
    match letters.exec {
        Some(mode) => !mode.is_bare() && !mode.inherits(),
        None => false,
    }
}

impl<'t> Reader<'t> {
    ghost use Rattle.std.specs.Prelude.{◌≡◌, length, Ok, codes};
    ghost use Rattle.apparmor_text.specs.Rules.{priority_part, optional_word, optional_choice, permissions_part, target_part};
    ghost use Rattle.apparmor_text.specs.Rules.{comma_part, rule_end};
    ghost use Rattle.apparmor_text.specs.Rules.{path_first, permissions_first, body_part, guarded_body, file_rule, link_rule};
    ghost use Rattle.apparmor_text.specs.Rules.{unqualified_item, qualified_item, runs_apart, rule_item};
    ghost use Rattle.std.specs.List.{list_any};
    ghost use Rattle.apparmor_words.specs.Gives.{Gives};

    /// A priority and the blank after it, if one is here.
    fn priority(&mut self) -> Result<(), Failure<'t>>
        ensures { Gives (λ _. self.new) result (priority_part self.old) }
    {
        if !is_word(b"priority", self.rest()) {
            return Ok(());
        }
        self.take_to(PartKind::Priority, after_priority(self.rest())?)?;
        self.blank()
    }

    /// This word and the blank after it, if it is here.
    fn optional_word(&mut self, kind: PartKind, name: &[u8]) -> Result<(), Failure<'t>>
        ensures { Gives (λ _. self.new) result (optional_word kind name.now self.old) }
    {
        if !is_word(name, self.rest()) {
            return Ok(());
        }
        self.take(kind, name.len())?;
        self.blank()
    }

    /// `allow` or `deny` and the blank after it, if one is here.
    fn allow_or_deny(&mut self) -> Result<(), Failure<'t>>
        ensures { Gives (λ _. self.new) result (optional_choice PartKind.Allow (codes "allow") PartKind.Deny (codes "deny") self.old) }
    {
        if is_word(b"allow", self.rest()) {
            self.optional_word(PartKind::Allow, b"allow")
        } else {
            self.optional_word(PartKind::Deny, b"deny")
        }
    }

    /// `owner` or `other` and the blank after it, if one is here.
    fn owner_or_other(&mut self) -> Result<(), Failure<'t>>
        ensures { Gives (λ _. self.new) result (optional_choice PartKind.Owner (codes "owner") PartKind.Other (codes "other") self.old) }
    {
        if is_word(b"owner", self.rest()) {
            self.optional_word(PartKind::Owner, b"owner")
        } else {
            self.optional_word(PartKind::Other, b"other")
        }
    }

    /// `safe` or `unsafe` and the blank after it, if one is here.
    fn safe_or_unsafe(&mut self) -> Result<(), Failure<'t>>
        ensures { Gives (λ _. self.new) result (optional_choice PartKind.Safe (codes "safe") PartKind.Unsafe (codes "unsafe") self.old) }
    {
        if is_word(b"safe", self.rest()) {
            self.optional_word(PartKind::Safe, b"safe")
        } else {
            self.optional_word(PartKind::Unsafe, b"unsafe")
        }
    }

    /// The letters of permissions, which are here.
    fn permissions(&mut self) -> Result<(), Failure<'t>>
        ensures { Gives (λ _. self.new) result (Ok (permissions_part self.old)) }
    {
        self.take(PartKind::Permissions, letter_word(self.rest()).len())
    }

    /// An arrow, which is here, and the word after it: one part.
    fn target(&mut self) -> Result<(), Failure<'t>>
        ensures { Gives (λ _. self.new) result (target_part self.old) }
    {
        let word = match self.rest() {
            [_, _, word @ ..] => after_blank(word)?,
            _ => after_blank(&[])?,
        };
        self.take_to(PartKind::Arrow, after_word(word)?)?;
        self.blank()
    }

    /// The comma that ends a rule.
    fn comma(&mut self) -> Result<(), Failure<'t>>
        ensures { Gives (λ _. self.new) result (comma_part self.old) }
    {
        self.literal(PartKind::Comma, b",")
    }

    /// What follows path and permissions: an arrow, if there is one, and the comma.
    #[tactic(auto, unfolding(crate::specs::Rules::rule_end))]
    fn rule_end(&mut self) -> Result<(), Failure<'t>>
        ensures { Gives (λ _. self.new) result (rule_end self.old) }
    {
        self.blank()?;
        if is_arrow(self.rest()) {
            self.target()?;
        }
        self.comma()
    }

    /// A rule from its path on, where that comes first.
    #[tactic(auto, unfolding(crate::specs::Rules::path_first))]
    fn path_first(&mut self, denies: bool) -> Result<(), Failure<'t>>
        ensures { Gives (λ _. self.new) result (path_first denies self.old) }
    {
        self.path(PartKind::Path)?;
        self.blank()?;
        let rest = self.rest();
        let unknown = Stop {
            kind: StopKind::Permissions,
            left: rest.len(),
        };
        permissions_word(denies, unknown, rest)?;
        self.permissions()?;
        self.rule_end()
    }

    /// A rule from its permissions on, where these come first.
    #[tactic(auto, unfolding(crate::specs::Rules::permissions_first))]
    fn permissions_first(&mut self, denies: bool) -> Result<(), Failure<'t>>
        ensures { Gives (λ _. self.new) result (permissions_first denies self.old) }
    {
        let start = self.rest();
        let unknown = Stop {
            kind: StopKind::LeftOut(letter_word(start)),
            left: start.len(),
        };
        let letters = permissions_word(denies, unknown, start)?;
        self.permissions()?;
        self.gap()?;
        self.optional_word(PartKind::Subset, b"subset")?;
        self.path(PartKind::Path)?;
        self.blank()?;
        if is_arrow(self.rest()) && links_and_runs(letters) {
            return Err(failure_here(StopKind::Permissions, start));
        }
        self.rule_end()
    }

    /// A rule's path and permissions, in either order, and what follows them.
    #[tactic(auto, unfolding(crate::specs::Rules::body_part))]
    fn body(&mut self, denies: bool) -> Result<(), Failure<'t>>
        ensures { Gives (λ _. self.new) result (body_part denies self.old) }
    {
        let rest = self.rest();
        match rest {
            [b'/' | b'@' | b'"', ..] => self.path_first(denies),
            _ if is_all_rule(rest) => Err(Failure::At(word_left_out(rest))),
            _ if !letter_word(rest).is_empty() => self.permissions_first(denies),
            [b'{' | b'$', ..] => Err(failure_here(StopKind::LeftOut(&rest[..1]), rest)),
            _ => Err(failure_here(StopKind::Syntax, rest)),
        }
    }

    /// The same after `safe` or `unsafe`, if one is here.
    fn guarded_body(&mut self, denies: bool) -> Result<(), Failure<'t>>
        ensures { Gives (λ _. self.new) result (guarded_body denies self.old) }
    {
        self.safe_or_unsafe()?;
        self.body(denies)
    }

    /// A rule from the word `file` on, which is here. `from_deny` bytes are left from the word `deny` on.
    #[tactic(auto, unfolding(crate::specs::Rules::file_rule))]
    fn file_rule(&mut self, denies: bool, from_deny: usize) -> Result<(), Failure<'t>>
        ensures { Gives (λ _. self.new) result (file_rule denies from_deny self.old) }
    {
        self.take(PartKind::File, 4)?;
        self.blank()?;
        if self.rest().starts_with(b",") {
            if denies {
                return Err(Failure::At(Stop {
                    kind: StopKind::Permissions,
                    left: from_deny,
                }));
            }
            return self.comma();
        }
        self.guarded_body(denies)
    }

    /// A rule from the word `link` on, which is here.
    #[tactic(auto, unfolding(crate::specs::Rules::link_rule))]
    fn link_rule(&mut self) -> Result<(), Failure<'t>>
        ensures { Gives (λ _. self.new) result (link_rule self.old) }
    {
        self.take(PartKind::Link, 4)?;
        self.blank()?;
        self.optional_word(PartKind::Subset, b"subset")?;
        self.path(PartKind::Path)?;
        self.blank()?;
        if !is_arrow(self.rest()) {
            return Err(failure_here(StopKind::Syntax, self.rest()));
        }
        self.target()?;
        self.comma()
    }

    /// What follows the qualifiers, one of which denies or not; `from_deny` bytes are left from that one on.
    #[tactic(auto, unfolding(crate::specs::Rules::unqualified_item))]
    fn unqualified_item(&mut self, denies: bool, from_deny: usize) -> Result<ItemKind, Failure<'t>>
        ensures { Gives (λ kind. (kind, self.new)) result (unqualified_item denies from_deny self.old) }
    {
        let rest = self.rest();
        if is_word(b"include", rest) {
            return Err(failure_here(StopKind::Include, rest));
        }
        if is_statement(rest) {
            self.statement()?;
            return Ok(ItemKind::Statement);
        }
        if is_word(b"link", rest) {
            self.link_rule()?;
        } else if is_word(b"file", rest) {
            self.file_rule(denies, from_deny)?;
        } else {
            self.guarded_body(denies)?;
        }
        Ok(ItemKind::Rule)
    }

    /// Whether what was read of the item has an exec mode without `i`.
    fn runs_apart(&self) -> bool
        ensures { result ≡ list_any runs_apart self.now.parts }
    {
        self.parts().iter().any(|part| runs_apart(part))
    }

    /// A statement or a file rule, with its qualifiers, whatever its priority is.
    #[tactic(auto, unfolding(crate::specs::Rules::qualified_item))]
    fn qualified_item(&mut self) -> Result<ItemKind, Failure<'t>>
        ensures { Gives (λ kind. (kind, self.new)) result (qualified_item self.old) }
    {
        self.priority()?;
        self.optional_word(PartKind::Audit, b"audit")?;
        let denies = is_word(b"deny", self.rest());
        let from_deny = self.rest().len();
        self.allow_or_deny()?;
        self.owner_or_other()?;
        self.unqualified_item(denies, from_deny)
    }

    /// A statement or a file rule, with its qualifiers. A priority over 0 isn't supported with an exec mode without `i`.
    #[tactic(auto, unfolding(crate::specs::Rules::rule_item))]
    pub(crate) fn rule_item(&mut self) -> Result<ItemKind, Failure<'t>>
        ensures { Gives (λ kind. (kind, self.new)) result (rule_item self.old) }
    {
        let start = self.rest();
        let kind = self.qualified_item()?;
        if is_raised(start) && self.runs_apart() {
            return Err(Failure::At(word_left_out(start)));
        }
        Ok(kind)
    }
}
