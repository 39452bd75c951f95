//! The path of a rule.
ghost use Rattle.std.specs.Prelude.{◌≡◌, ◌∷◌, ◌++◌, [], ℕ, List, map, false, option_map, length, drop, codes, IfOk, IfErr, IfSome, IsTrue};
ghost use Rattle.std.specs.Prelude.{◌≤◌};
ghost use Rattle.rule_reader.specs.inner.PartialPaths.{tokens_in, braces_in, token_value, StandsIn};
ghost use Rattle.rule_globs.specs.Meaning.{meaning_of, stars_glob};
ghost use Rattle.rule_reader.specs.inner.Gives.{Gives};
ghost use Rattle.rule_profile.specs.Limits.{most_items};
ghost use Rattle.rule_reader.specs.ReadWords.{after};
ghost use Rattle.rule_globs.specs.Tokens.{tokens_of, all_full};
ghost use Rattle.rule_reader.specs.ReadPaths.{braces_behind, path_ends, escaped_at, goes_on_at, slash_or_end, token_at, tokens_at};
ghost use Rattle.rule_reader.specs.ReadPaths.{path_in, path_at};
ghost use Rattle.rule_reader.specs.PathText.{text_tokens};
ghost use Rattle.rule_profile.specs.PathTokens.{is_plain_slash};
ghost use Rattle.rule_profile.specs.Readable.{are_tokens};
ghost use Rattle.rule_reader.specs.TextBytes.{is_star};

use super::builder::Builder;
use super::bytes::{ends_behind_comma, is_white};
use super::class::class_of;
use super::local_fault::{Failure, FaultKind, fault_here, fault_with_left};
use super::words::after_literal;
use names::NoMemory;
use rule_globs::{Class, Item, MOST_ITEMS, RulePath, Stars};
use rule_profile::MOST_NESTED;
use std::alloc::Global;

/// An item, or a brace or comma of a group.
#[derive(Drop)]
pub(crate) enum Lexeme {
    Byte(u8),
    AnyByte,
    Class(Class),
    Stars(Stars),
    Opening,
    Between,
    Closing,
}

impl Lexeme {
    /// A slash that stands for itself.
    fn is_plain_slash(&self) -> bool
        ensures { result ≡ is_plain_slash (token_value self.now) }
    {
        matches!(self, Lexeme::Byte(b'/'))
    }
}

/// Whether the path ends before these bytes, in quotes or not, at this depth of groups.
fn path_ends(quoted: bool, depth: usize, bytes: &[u8]) -> bool
    ensures { result ≡ path_ends quoted depth bytes.now }
{
    match bytes {
        [] => !quoted,
        [b'"', ..] => true,
        [b',', behind @ ..] if !quoted && depth == 0 => match behind {
            [] => true,
            [byte, ..] => ends_behind_comma(*byte),
        },
        [byte, ..] => !quoted && is_white(*byte),
    }
}

/// The byte after the backslash that `bytes` begins with, and what is left after it.
fn escaped_of(bytes: &[u8]) -> Result<(u8, &[u8]), Failure>
    ensures { Gives (λ x. (x.0, x.1.now)) result (escaped_at (drop 1 bytes.now)) }
{
    match bytes {
        [_, byte, ..] if byte.is_ascii_alphanumeric() => Err(fault_with_left(
            FaultKind::LeftOut(2),
            bytes.len(),
            bytes,
        )),
        [_, byte, rest @ ..] if *byte != 0 && *byte != b'\n' => Ok((*byte, rest)),
        [_, rest @ ..] => Err(fault_here(FaultKind::Syntax, rest)),
        [] => Err(fault_here(FaultKind::Syntax, bytes)),
    }
}

/// Whether an item, a brace or a comma begins here, or the path ends. Anything else is a fault.
#[tactic(auto, unfolding(crate::specs::ReadPaths::goes_on_at))]
fn goes_on(quoted: bool, depth: usize, bytes: &[u8]) -> Result<bool, Failure>
    ensures { Gives (λ x. x) result (goes_on_at quoted depth bytes.now) }
{
    match bytes {
        [] if quoted => Err(fault_here(FaultKind::Syntax, bytes)),
        [0, ..] => Err(fault_here(FaultKind::Syntax, bytes)),
        [b'\n', ..] if quoted => Err(fault_here(FaultKind::Syntax, bytes)),
        _ if path_ends(quoted, depth, bytes) => Ok(false),
        [b'{', ..] if depth >= MOST_NESTED => Err(fault_here(FaultKind::Depth, bytes)),
        [b'}', ..] if depth == 0 => Err(fault_here(FaultKind::Group, bytes)),
        [b'@', b'{', ..] => Err(fault_here(FaultKind::LeftOut(2), bytes)),
        [b'\\', ..] => {
            escaped_of(bytes)?;
            Ok(true)
        }
        _ => Ok(true),
    }
}

/// Whether a plain slash is here, by itself or after a backslash, or the path ends.
fn slash_or_end(quoted: bool, depth: usize, bytes: &[u8]) -> bool
    ensures { result ≡ slash_or_end quoted depth bytes.now }
{
    matches!(bytes, [b'/', ..] | [b'\\', b'/', ..]) || path_ends(quoted, depth, bytes)
}

fn after_stars(bytes: &[u8]) -> &[u8]
    ensures { result.now ≡ after is_star bytes.now }
{
    let mut rest = bytes;
    while let [b'*', more @ ..] = rest {
        rest = more;
    }
    rest
}

/// What begins here, and what is left after it. A run of stars is strict between a plain slash and another or the path's end.
#[tactic(auto, unfolding(crate::specs::ReadPaths::token_at))]
fn lexeme_of(
    alloc: Global,
    quoted: bool,
    depth: usize,
    after_slash: bool,
    bytes: &[u8],
) -> Result<(Lexeme, &[u8]), Failure>
    ensures { Gives (λ x. (token_value x.0, x.1.now)) result (token_at quoted depth after_slash bytes.now) }
{
    match bytes {
        [b'*', more @ ..] => {
            let rest = after_stars(more);
            let stars = Stars {
                crosses_slashes: matches!(more, [b'*', ..]),
                strict: after_slash && slash_or_end(quoted, depth, rest),
            };
            Ok((Lexeme::Stars(stars), rest))
        }
        [b'?', rest @ ..] => Ok((Lexeme::AnyByte, rest)),
        [b'[', members @ ..] => {
            let (class, rest) = class_of(alloc, quoted, bytes.len(), members)?;
            Ok((Lexeme::Class(class), rest))
        }
        [b'{', rest @ ..] => Ok((Lexeme::Opening, rest)),
        [b'}', rest @ ..] => Ok((Lexeme::Closing, rest)),
        [b',', rest @ ..] if depth > 0 => Ok((Lexeme::Between, rest)),
        [b'\\', ..] => {
            let (byte, rest) = escaped_of(bytes)?;
            Ok((Lexeme::Byte(byte), rest))
        }
        [byte, rest @ ..] => Ok((Lexeme::Byte(*byte), rest)),
        [] => Err(fault_here(FaultKind::Syntax, bytes)),
    }
}

/// Adds a token to a path, with `left` bytes left from the token on.
fn add(builder: &mut Builder, alloc: Global, lexeme: Lexeme, left: usize) -> Result<(), Failure>
    ensures tokens { IfOk result (λ _. StandsIn (braces_in builder.old) (token_value lexeme) →
        tokens_in builder.new ≡ tokens_in builder.old ++ (token_value lexeme ∷ [])) }
    ensures braces { IfOk result (λ _. braces_in builder.new ≡ braces_behind (token_value lexeme) left (braces_in builder.old)) }
    ensures memory { IfErr result (λ e. e ≡ Failure.NoMemory) }
{
    match lexeme {
        Lexeme::Byte(byte) => builder.push(Item::Byte(byte))?,
        Lexeme::AnyByte => builder.push(Item::AnyByte)?,
        Lexeme::Class(class) => builder.push(Item::Class(class))?,
        Lexeme::Stars(stars) => builder.push(Item::Stars(stars))?,
        Lexeme::Opening => builder.open_group(alloc, left)?,
        Lexeme::Between => builder.next_alternative(alloc)?,
        Lexeme::Closing => builder.close_group()?,
    }
    Ok(())
}

/// The items up to the path's end, and what is left after them.
fn items_of(alloc: Global, quoted: bool, bytes: &[u8]) -> Result<(Vec<Item>, &[u8]), Failure>
    ensures gives { Gives (λ x. (tokens_of x.0.items, x.1.now)) result (tokens_at quoted most_items [] false bytes.now) }
    ensures full { IfOk result (λ x. IsTrue (all_full x.0.items)) }
    ensures few { IfOk result (λ x. length (tokens_of x.0.items) ≤ most_items) }
{
    let mut builder = Builder::new(alloc);
    let mut count = 0;
    let mut after_slash = false;
    let mut rest = bytes;
    while goes_on(quoted, builder.depth(), rest)? {
        if count == MOST_ITEMS {
            return Err(fault_here(FaultKind::TooManyItems, rest));
        }
        let (lexeme, more) = lexeme_of(alloc, quoted, builder.depth(), after_slash, rest)?;
        after_slash = lexeme.is_plain_slash();
        add(&mut builder, alloc, lexeme, rest.len())?;
        count += 1;
        rest = more;
    }
    let items = builder.finish(rest)?;
    Ok((items, rest))
}

/// A path without its quotes, and what is left after it.
#[tactic(auto, unfolding(crate::specs::ReadPaths::path_in))]
fn path_in(alloc: Global, quoted: bool, bytes: &[u8]) -> Result<(RulePath, &[u8]), Failure>
    ensures { Gives (λ x. (x.0, x.1.now)) result (path_in quoted bytes.now) }
{
    match bytes {
        [b'/', ..] => {
            let (items, rest) = items_of(alloc, quoted, bytes)?;
            Ok((RulePath::new(items), rest))
        }
        [] | [0, ..] => Err(fault_here(FaultKind::Syntax, bytes)),
        [b'\n', ..] if quoted => Err(fault_here(FaultKind::Syntax, bytes)),
        _ => Err(fault_here(FaultKind::NotAbsolute, bytes)),
    }
}

/// A path, and what is left after it.
#[tactic(auto, unfolding(crate::specs::ReadPaths::path_at))]
pub(crate) fn path_of(alloc: Global, bytes: &[u8]) -> Result<(RulePath, &[u8]), Failure>
    ensures { Gives (λ x. (x.0, x.1.now)) result (path_at bytes.now) }
{
    match bytes {
        [b'"', inside @ ..] => {
            let (path, rest) = path_in(alloc, true, inside)?;
            let rest = after_literal(b"\"", rest)?;
            Ok((path, rest))
        }
        _ => path_in(alloc, false, bytes),
    }
}

/// Reads a whole text as the items of a path, as if within quotes: it may have white in it, and a quote only after a backslash. It
/// need not begin with a slash. None for a text that is refused, or that goes on after the path.
pub fn read_path(alloc: Global, text: &[u8]) -> Result<Option<Vec<Item>>, NoMemory>
    ensures tokens { IfOk result (λ o. option_map (λ items. tokens_of items.items) o ≡ text_tokens text.now) }
    ensures full { IfOk result (λ o. IfSome o (λ items. IsTrue (all_full items.items))) }
    ensures few { IfOk result (λ o. IfSome o (λ items. length (tokens_of items.items) ≤ most_items)) }
    ensures stand { IfOk result (λ o. IfSome o (λ items. IsTrue (are_tokens false 0 (tokens_of items.items)))) }
{
    let Ok(quoted) = with_quote(alloc, text) else {
        return Err(NoMemory);
    };
    match items_of(alloc, true, &quoted) {
        Ok((items, rest)) if rest.len() == 1 => Ok(Some(items)),
        Ok(_) | Err(Failure::At(_)) => Ok(None),
        Err(Failure::NoMemory) => Err(NoMemory),
    }
}

/// The text with a quote after it, as a path in quotes ends.
fn with_quote(alloc: Global, text: &[u8]) -> Result<Vec<u8>, Failure>
    ensures { IfOk result (λ quoted. quoted.items ≡ text.now ++ codes "\"") }
{
    let mut quoted = Vec::from_slice(alloc, text)?;
    quoted.push(b'"')?;
    Ok(quoted)
}
