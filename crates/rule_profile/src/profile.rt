ghost use Rattle.std.specs.Prelude.{◌≡◌, ◌≤◌, IsTrue, length, map};
ghost use Rattle.rule_profile.specs.Limits.{most_rules};
ghost use Rattle.rule_profile.specs.Rules.{rule_value};
ghost use Rattle.rule_profile.specs.Readable.{is_profile};

use names::{Perms, RuleKind};
use rule_globs::{Item, RulePath};

/// The most rules of a profile.
pub const MOST_RULES: usize = 1024;

/// The most bytes of a profile's name (our choice).
pub const LONGEST_PROFILE_NAME: usize = 255;

/// How deep the groups of a path may nest (our choice).
pub const MOST_NESTED: usize = 50;

/// Where a rule is in its text: from its first byte to its comma.
#[derive(Clone, Copy, Debug, PartialEq, Eq)]
pub struct Span {
    /// The number of bytes before the rule's first byte.
    pub start: usize,
    /// The number of bytes up to and with its comma.
    pub end: usize,
}

/// A file rule: it allows or denies its permissions to the names that its path matches
/// (apparmor.d(5), "Access Modes Details").
#[derive(Debug, Drop)]
pub struct Rule {
    kind: RuleKind,
    perms: Perms,
    path: RulePath,
    span: Span,
}

impl Rule {
    ghost use Rattle.std.specs.Prelude.{map};
    ghost use Rattle.rule_profile.specs.Limits.{most_places};
    ghost use Rattle.rule_profile.specs.Profile.{rule_value, pattern};
    ghost use Rattle.rule_profile.specs.RuleSpans.{rule_span};
    ghost use Rattle.rule_globs.specs.Tokens.{tokens_of};
    ghost use Rattle.rule_globs.specs.Meaning.{meaning_of};
    ghost use Rattle.rule_globs.specs.Glob.{places};

    /// The rule that allows or denies these permissions to the names that the path matches. It is in no text: its span is
    /// empty.
    pub fn new(kind: RuleKind, perms: Perms, path: RulePath) -> Rule
        ensures value { rule_value result ≡ record { kind = kind; perms = perms; items = path } }
        ensures span { rule_span result ≡ record { start = 0; end = 0 } }
    {
        Rule {
            kind,
            perms,
            path,
            span: Span { start: 0, end: 0 },
        }
    }

    /// The same rule, at this place of the text that it was read from.
    pub fn with_span(self, span: Span) -> Rule
        ensures value { rule_value result ≡ rule_value self }
        ensures span { rule_span result ≡ span }
    {
        Rule { span, ..self }
    }

    /// Whether the rule allows or denies.
    pub fn kind(&self) -> RuleKind
        ensures { result ≡ (rule_value self.now).kind }
    {
        self.kind
    }

    /// The permissions of the rule's letters. It holds append also if write is among them ([`Perms::held`]).
    pub fn perms(&self) -> Perms
        ensures { result ≡ (rule_value self.now).perms }
    {
        self.perms
    }

    /// The rule's path.
    pub fn path(&self) -> &RulePath
        ensures { result.now ≡ (rule_value self.now).items }
    {
        &self.path
    }

    /// The items of the rule's path, in the order written.
    pub fn items(&self) -> &[Item]
        ensures items { tokens_of result.now ≡ (rule_value self.now).items }
        ensures pattern { meaning_of result.now ≡ pattern (rule_value self.now) }
        ensures room { places (meaning_of result.now) ≤ most_places }
    {
        self.path.items()
    }

    /// Where the rule is in the text that it was read from.
    pub fn span(&self) -> Span
        ensures { result ≡ rule_span self.now }
    {
        self.span
    }
}

/// A profile: a name and its rules, numbered from 1 in the order of the text. Each can be read: reading makes one, or
/// [`Profile::new`] does of a name and rules that pass the same tests.
#[derive(Debug, Drop)]
pub struct Profile {
    name: Vec<u8>,
    rules: Vec<Rule>,
    ghost few_rules: { length rules.items ≤ most_rules },
    ghost readable: { IsTrue (is_profile (record { name = name.items; rules = map rule_value rules.items })) },
}

impl Profile {
    ghost use Rattle.std.specs.Prelude.{map};
    ghost use Rattle.rule_profile.specs.Limits.{most_rules};
    ghost use Rattle.rule_profile.specs.Profile.{rule_value, profile_value};
    ghost use Rattle.rule_profile.specs.Readable.{is_profile};
    ghost use Rattle.rule_profile.specs.RuleSpans.{rule_span, profile_spans};

    /// The profile of this name and these rules, which some text is read as.
    pub fn new(name: Vec<u8>, rules: Vec<Rule>) -> Profile
        requires { IsTrue (is_profile (record { name = name.items; rules = map rule_value rules.items })) }
        ensures value { profile_value result ≡ record { name = name.items; rules = map rule_value rules.items } }
        ensures spans { profile_spans result ≡ map rule_span rules.items }
    {
        Profile { name, rules }
    }

    /// The name, as written: 1 to 255 bytes.
    pub fn name(&self) -> &[u8]
        ensures { result.now ≡ (profile_value self.now).name }
    {
        &self.name
    }

    /// The rules, in the order of the text.
    pub fn rules(&self) -> &[Rule]
        ensures rules { map rule_value result.now ≡ (profile_value self.now).rules }
        ensures spans { map rule_span result.now ≡ profile_spans self.now }
        ensures few { length result.now ≤ most_rules }
    {
        &self.rules
    }
}
