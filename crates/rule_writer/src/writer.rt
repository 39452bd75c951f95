//! The canonical texts of a profile and of a rule.
ghost use Rattle.std.specs.Prelude.{◌≡◌, ◌++◌, IfOk, codes, map};
ghost use Rattle.std.specs.List.{flat_map};
ghost use Rattle.names.specs.Permissions.{letters};
ghost use Rattle.rule_writer.specs.Canonical.{escaped_among, range_text, token_text, rule_line, rule_text, canonical};
ghost use Rattle.rule_reader.specs.Grammar.{ReadsAs};
ghost use Rattle.rule_profile.specs.Profile.{rule_value, profile_value};
ghost use Rattle.rule_globs.specs.Tokens.{bracket, stars as stars_token, tokens, tokens_of, with_commas};

use names::{NoMemory, Permission, Perms, RuleKind};
use rule_globs::{ByteRange, Class, Item, Stars};
use rule_profile::{Profile, Rule};
use rule_reader::profiles_can_be_read;
use std::alloc::Global;

/// The bytes that have a backslash before them in a path.
const SPECIAL: &[u8] = b"*?[{},\\\"@]";

/// The bytes that have a backslash before them in a class.
const SPECIAL_IN_CLASS: &[u8] = b"\\]^-\"";

/// Adds these bytes.
fn put(text: &mut Vec<u8>, bytes: &[u8]) -> Result<(), NoMemory>
    ensures { IfOk result (λ _. text.new.items ≡ text.old.items ++ bytes.now) }
{
    match text.extend_from_slice(bytes) {
        Ok(()) => Ok(()),
        Err(_) => Err(NoMemory),
    }
}

/// Adds a byte, after a backslash if it is one of the special ones.
fn put_escaped(text: &mut Vec<u8>, special: &[u8], byte: u8) -> Result<(), NoMemory>
    ensures { IfOk result (λ _. text.new.items ≡ text.old.items ++ escaped_among special.now byte) }
{
    if special.contains(&byte) {
        put(text, b"\\")?;
    }
    put(text, &[byte])
}

/// Adds a range of a class. A range of one is its byte.
fn put_range(text: &mut Vec<u8>, range: ByteRange) -> Result<(), NoMemory>
    ensures { IfOk result (λ _. text.new.items ≡ text.old.items ++ range_text range) }
{
    put_escaped(text, SPECIAL_IN_CLASS, range.first)?;
    if range.first != range.last {
        put(text, b"-")?;
        put_escaped(text, SPECIAL_IN_CLASS, range.last)?;
    }
    Ok(())
}

/// Adds a class.
fn put_class(text: &mut Vec<u8>, class: &Class) -> Result<(), NoMemory>
    ensures { IfOk result (λ _. text.new.items ≡ text.old.items ++ token_text (bracket class.now.negated class.now.ranges)) }
{
    put(text, if class.is_negated() { b"[^" } else { b"[" })?;
    for range in class.ranges() {
        put_range(text, *range)?;
    }
    put(text, b"]")
}

/// Adds the items of a path or of an alternative.
#[cycle(write)]
fn put_items(text: &mut Vec<u8>, items: &[Item]) -> Result<(), NoMemory>
    ensures { IfOk result (λ _. text.new.items ≡ text.old.items ++ flat_map token_text (tokens_of items.now)) }
{
    for item in items {
        put_item(text, item)?;
    }
    Ok(())
}

#[cycle(write)]
fn put_item(text: &mut Vec<u8>, item: &Item) -> Result<(), NoMemory>
    ensures { IfOk result (λ _. text.new.items ≡ text.old.items ++ flat_map token_text (tokens item.now)) }
{
    match item {
        Item::Byte(byte) => put_escaped(text, SPECIAL, *byte),
        Item::AnyByte => put(text, b"?"),
        Item::Class(class) => put_class(text, class),
        Item::Stars(stars) => put(text, stars_text(*stars)),
        Item::Group(alternatives) => {
            put(text, b"{")?;
            put_alternatives(text, alternatives)?;
            put(text, b"}")
        }
    }
}

/// Adds the alternatives of a group, with a comma between each two.
#[cycle(write)]
fn put_alternatives(text: &mut Vec<u8>, alternatives: &[Vec<Item>]) -> Result<(), NoMemory>
    ensures { IfOk result (λ _. text.new.items ≡ text.old.items
        ++ flat_map token_text (with_commas (map (λ items. tokens_of items.items) alternatives.now))) }
{
    let mut first = true;
    for items in alternatives {
        if !first {
            put(text, b",")?;
        }
        first = false;
        put_items(text, items)?;
    }
    Ok(())
}

fn stars_text(stars: Stars) -> &'static [u8]
    ensures { result.now ≡ token_text (stars_token stars.crosses_slashes stars.strict) }
{
    if stars.crosses_slashes { b"**" } else { b"*" }
}

/// Adds the letters of a set of permissions, in the order of [`Permission::ALL`].
fn put_perms(text: &mut Vec<u8>, perms: Perms) -> Result<(), NoMemory>
    ensures { IfOk result (λ _. text.new.items ≡ text.old.items ++ letters perms) }
{
    for permission in Permission::ALL {
        if perms.contains(permission) {
            put(text, &[permission.letter()])?;
        }
    }
    Ok(())
}

/// Adds a rule.
fn put_rule(text: &mut Vec<u8>, rule: &Rule) -> Result<(), NoMemory>
    ensures { IfOk result (λ _. text.new.items ≡ text.old.items ++ rule_text (rule_value rule.now)) }
{
    match rule.kind() {
        RuleKind::Allow => put(text, b"\"")?,
        RuleKind::Deny => put(text, b"deny \"")?,
    }
    put_items(text, rule.items())?;
    put(text, b"\" ")?;
    put_perms(text, rule.perms())?;
    put(text, b",")
}

/// Adds the line of a rule.
#[tactic(auto, using(crate::proofs::CanonRules::line_of_text))]
fn put_line(text: &mut Vec<u8>, rule: &Rule) -> Result<(), NoMemory>
    ensures { IfOk result (λ _. text.new.items ≡ text.old.items ++ rule_line (rule_value rule.now)) }
{
    put(text, b"  ")?;
    put_rule(text, rule)?;
    put(text, b"\n")
}

/// Writes a rule as it is in a canonical text, without the spaces before it and the line's end. Read again it is the same
/// rule ([`rule_texts_are_read`](crate::rule_texts_are_read)).
pub fn write_rule(alloc: Global, rule: &Rule) -> Result<Vec<u8>, NoMemory>
    ensures { IfOk result (λ text. text.items ≡ rule_text (rule_value rule.now)) }
{
    let mut text = Vec::new(alloc);
    put_rule(&mut text, rule)?;
    Ok(text)
}

/// Writes a profile's canonical text: the line `profile "NAME" {`, a line for each rule, and the line `}`. Read again it is
/// the same profile.
#[tactic(auto, unfolding(crate::specs::Canonical::canonical))]
pub fn write(alloc: Global, profile: &Profile) -> Result<Vec<u8>, NoMemory>
    ensures canonical { IfOk result (λ text. text.items ≡ canonical (profile_value profile.now)) }
    ensures again { IfOk result (λ text. ReadsAs text.items (profile_value profile.now)) }
{
    profiles_can_be_read();
    let mut text = Vec::new(alloc);
    put(&mut text, b"profile \"")?;
    put(&mut text, profile.name())?;
    put(&mut text, b"\" {\n")?;
    for rule in profile.rules() {
        put_line(&mut text, rule)?;
    }
    put(&mut text, b"}\n")?;
    Ok(text)
}
