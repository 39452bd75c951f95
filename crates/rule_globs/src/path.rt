//! The path of a rule, and which names it matches.
use crate::items::Item;
use crate::matches::take_all;
use std::marker::Model;

/// The most items of a path, with the braces and commas of its groups.
pub const MOST_ITEMS: usize = 1024;

/// The most places of a path, at each of which a match can be: two for each item.
pub const MOST_PLACES: usize = 2 * MOST_ITEMS;

/// The path of a rule. To contracts it is the row of its tokens. Each of its groups has an alternative, and it has 2,048
/// places at most, for which matching has room.
#[derive(Debug, Drop)]
pub struct RulePath {
    items: Vec<Item>,
}

impl Model for RulePath {
    ghost use Rattle.std.specs.Prelude.{◌≤◌, List, IsTrue};
    ghost use Rattle.rule_globs.specs.Glob.{places};
    ghost use Rattle.rule_globs.specs.Limits.{most_places};
    ghost use Rattle.rule_globs.specs.Meaning.{meaning_of};
    ghost use Rattle.rule_globs.specs.Tokens.{Token, tokens_of, all_full};

    ghost Value = { List Token };

    ghost view = { λ p. tokens_of p.items.items };

    ghost invariant = { λ p. IsTrue (all_full p.items.items) × (places (meaning_of p.items.items) ≤ most_places) };
}

impl RulePath {
    ghost use Rattle.std.specs.Prelude.{◌≡◌, ◌≤◌, ◌↔◌, IsTrue, length};
    ghost use Rattle.rule_globs.specs.Glob.{Takes, places};
    ghost use Rattle.rule_globs.specs.Limits.{most_items, most_places};
    ghost use Rattle.rule_globs.specs.Meaning.{meaning_of};
    ghost use Rattle.rule_globs.specs.Tokens.{tokens_of, pattern_of, all_full};

    /// The path with these items.
    #[tactic(auto, using(crate::specs::laws::TokenLaws::room_of))]
    pub fn new(items: Vec<Item>) -> RulePath
        requires full { IsTrue (all_full items.items) }
        requires few { length (tokens_of items.items) ≤ most_items }
        ensures { result ≡ tokens_of items.items }
    {
        RulePath { items }
    }

    /// The items, in the order written.
    pub fn items(&self) -> &[Item]
        ensures items { tokens_of result.now ≡ self.now }
        ensures pattern { meaning_of result.now ≡ pattern_of self.now }
        ensures room { places (meaning_of result.now) ≤ most_places }
    {
        &self.items
    }

    /// Whether the path matches all the bytes (apparmor.d(5), "Globbing").
    ///
    /// The time grows with the number of items times the number of bytes. Nothing is allocated: 64 bytes at a time move the live
    /// places on in one pass over the items, in room on the stack.
    pub fn takes(&self, bytes: &[u8]) -> bool
        ensures { IsTrue result ↔ Takes (pattern_of self.now) bytes.now }
    {
        take_all(self.items(), bytes)
    }
}
