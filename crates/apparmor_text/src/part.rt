//! The parts and the items of a text.
ghost use Rattle.std.specs.Prelude.{◌≡◌};

use std::marker::Model;

/// What a part of a text is there for.
#[derive(Clone, Copy, Debug, PartialEq, Eq)]
pub enum PartKind {
    /// White space and comments.
    Blank,
    /// `@{NAME}` before an operator.
    Variable,
    /// `=`
    Equals,
    /// `+=`
    Adds,
    /// What separates the values of a variable.
    Separator,
    /// A word that is a value of a variable.
    Value,
    /// A whole statement, or what follows its qualifiers.
    Statement,
    /// The word `profile`.
    Profile,
    /// The word `hat`, or `^`.
    Hat,
    /// The word that names a profile.
    Name,
    /// The word that says which programs a profile is for.
    Attachment,
    /// `xattrs=( .. )`
    Xattrs,
    /// `flags=( .. )`, or its parentheses alone.
    Flags,
    /// `{`
    Open,
    /// `}`
    Close,
    /// `priority=` and a number.
    Priority,
    /// The word `audit`.
    Audit,
    /// The word `allow`.
    Allow,
    /// The word `deny`.
    Deny,
    /// The word `owner`.
    Owner,
    /// The word `other`.
    Other,
    /// The word `file`.
    File,
    /// The word `safe`.
    Safe,
    /// The word `unsafe`.
    Unsafe,
    /// The word `link`.
    Link,
    /// The word `subset`.
    Subset,
    /// The word that is a rule's path.
    Path,
    /// The letters of a rule's permissions.
    Permissions,
    /// `->` and the word after it.
    Arrow,
    /// The comma that ends a file rule.
    Comma,
}

/// What an item of a text is.
#[derive(Clone, Copy, Debug, PartialEq, Eq)]
pub enum ItemKind {
    /// White space and comments.
    Blank,
    /// An assignment to a variable.
    Assignment,
    /// A rule that isn't about files, `abi`, or a boolean.
    Statement,
    /// What opens a profile or a child of one.
    Profile,
    /// What opens a hat.
    Hat,
    /// What closes a profile or a hat.
    Close,
    /// A file rule.
    Rule,
}

/// A part of a text: what it is there for, and its bytes as they are written.
#[derive(Debug, Drop)]
pub struct Part<'t> {
    kind: PartKind,
    bytes: &'t [u8],
}

impl<'t> Model for Part<'t> {
    ghost use Rattle.apparmor_text.specs.Parts.{PartValue};

    ghost Value = { PartValue };

    ghost view = { λ p. record { kind = p.kind; bytes = p.bytes.now } };
}

impl<'t> Part<'t> {
    /// A part of these bytes.
    pub(crate) fn new(kind: PartKind, bytes: &'t [u8]) -> Part<'t>
        ensures { result ≡ record { kind = kind; bytes = bytes.now } }
    {
        Part { kind, bytes }
    }

    /// What the part is there for.
    pub fn kind(&self) -> PartKind
        ensures { result ≡ self.now.kind }
    {
        self.kind
    }

    /// The bytes, as they are written.
    pub fn bytes(&self) -> &'t [u8]
        ensures { result.now ≡ self.now.bytes }
    {
        self.bytes
    }
}

/// An item of a text: what it is, and its parts in order.
#[derive(Debug, Drop)]
pub struct Item<'t> {
    kind: ItemKind,
    parts: Vec<Part<'t>>,
    text: &'t [u8],
}

impl<'t> Model for Item<'t> {
    ghost use Rattle.std.specs.Prelude.{◌≡◌};
    ghost use Rattle.apparmor_text.specs.Parts.{ItemValue, bytes_of_parts};

    ghost Value = { ItemValue };

    ghost view = { λ i. record { kind = i.kind; parts = i.parts.items } };

    ghost invariant = { λ i. i.text.now ≡ bytes_of_parts i.parts.items };
}

impl<'t> Item<'t> {
    ghost use Rattle.std.specs.Prelude.{◌≡◌};
    ghost use Rattle.apparmor_text.specs.Parts.{bytes_of_parts};

    /// An item of these parts, whose bytes are these.
    pub(crate) fn new(kind: ItemKind, parts: Vec<Part<'t>>, text: &'t [u8]) -> Item<'t>
        requires { text.now ≡ bytes_of_parts parts.items }
        ensures { result ≡ record { kind = kind; parts = parts.entry.items } }
    {
        Item { kind, parts, text }
    }

    /// All of its bytes, as they are written.
    pub fn text(&self) -> &'t [u8]
        ensures { result.now ≡ bytes_of_parts self.now.parts }
    {
        self.text
    }

    /// What the item is.
    pub fn kind(&self) -> ItemKind
        ensures { result ≡ self.now.kind }
    {
        self.kind
    }

    /// The parts, in order.
    pub fn parts(&self) -> &[Part<'t>]
        ensures { result.now ≡ self.now.parts }
    {
        &self.parts
    }
}
