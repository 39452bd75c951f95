//! The items of a text.
ghost use Rattle.std.specs.Prelude.{◌≡◌, ◌<◌, ◌++◌, ◌∷◌, [], length, option_map, IfOk};
ghost use Rattle.apparmor_text.specs.Texts.{item_at, ReadsFrom, ReadsItems};
ghost use Rattle.apparmor_words.specs.Stops.{stop_value};
ghost use Rattle.apparmor_words.specs.Gives.{Gives};

use crate::part::{Item, ItemKind, PartKind};
use crate::reader::{Reader, failure_here};
use crate::rule::word_left_out;
use apparmor_words::{
    Failure, Stop, StopKind, begins_gap, is_assignment, is_path, is_word, letter_word,
};
use names::NoMemory;
use std::alloc::Global;

/// How many profiles are open, one in another, and whether one has begun.
#[derive(Clone, Copy)]
pub(crate) struct Position {
    depth: usize,
    begun: bool,
}

/// The items of a text up to its end or to its first fault, and the fault, if there is one.
#[derive(Debug, Drop)]
pub struct ItemsRead<'t> {
    pub items: Vec<Item<'t>>,
    pub stop: Option<Stop<'t>>,
}

impl<'t> Reader<'t> {
    ghost use Rattle.apparmor_text.specs.Texts.{inner_item, outer_item, item_at};
    ghost use Rattle.apparmor_words.specs.Gives.{Gives};

    /// What begins here within a profile.
    #[tactic(auto, unfolding(crate::specs::Texts::inner_item))]
    fn inner_item(&mut self) -> Result<ItemKind, Failure<'t>>
        ensures { Gives (λ kind. (kind, self.new)) result (inner_item self.old) }
    {
        let rest = self.rest();
        if rest.starts_with(b"}") {
            self.take(PartKind::Close, 1)?;
            return Ok(ItemKind::Close);
        }
        if rest.starts_with(b"^") {
            self.caret_head()?;
            return Ok(ItemKind::Hat);
        }
        if is_word(b"hat", rest) {
            self.hat_head()?;
            return Ok(ItemKind::Hat);
        }
        if is_word(b"profile", rest) {
            self.profile_head()?;
            return Ok(ItemKind::Profile);
        }
        self.rule_item()
    }

    /// What begins here outside of profiles, whether or not one has begun before.
    #[tactic(auto, unfolding(crate::specs::Texts::outer_item))]
    fn outer_item(&mut self, begun: bool) -> Result<ItemKind, Failure<'t>>
        ensures { Gives (λ kind. (kind, self.new)) result (outer_item begun self.old) }
    {
        let rest = self.rest();
        if is_assignment(rest) {
            if begun {
                return Err(failure_here(StopKind::Syntax, rest));
            }
            self.assignment()?;
            return Ok(ItemKind::Assignment);
        }
        if is_path(rest) {
            self.named_head()?;
            return Ok(ItemKind::Profile);
        }
        if rest.starts_with(b"$") {
            self.boolean()?;
            return Ok(ItemKind::Statement);
        }
        if is_word(b"include", rest) {
            return Err(failure_here(StopKind::Include, rest));
        }
        if is_word(b"profile", rest) {
            self.profile_head()?;
            return Ok(ItemKind::Profile);
        }
        if is_word(b"abi", rest) {
            self.statement()?;
            return Ok(ItemKind::Statement);
        }
        if letter_word(rest).is_empty() {
            return Err(failure_here(StopKind::Syntax, rest));
        }
        Err(Failure::At(word_left_out(rest)))
    }

    /// What begins here, which is not the text's end.
    #[tactic(auto, unfolding(crate::specs::Texts::item_at))]
    fn item(&mut self, position: Position) -> Result<ItemKind, Failure<'t>>
        ensures { Gives (λ kind. (kind, self.new)) result (item_at position self.old) }
    {
        if begins_gap(self.rest()) {
            self.blank()?;
            Ok(ItemKind::Blank)
        } else if position.depth == 0 {
            self.outer_item(position.begun)
        } else {
            self.inner_item()
        }
    }
}

impl Position {
    ghost use Rattle.std.specs.Prelude.{◌≡◌, ◌<◌};
    ghost use Rattle.apparmor_text.specs.Texts.{behind_item, may_end};
    ghost use Rattle.apparmor_text.specs.inner.Counts.{max_count};

    /// The position after an item of this kind.
    fn behind(self, kind: ItemKind) -> Position
        requires { self.depth < max_count }
        ensures { result ≡ behind_item kind self }
    {
        match kind {
            ItemKind::Profile | ItemKind::Hat => Position {
                depth: self.depth + 1,
                begun: true,
            },
            ItemKind::Close => Position {
                depth: self.depth.saturating_sub(1),
                ..self
            },
            ItemKind::Blank | ItemKind::Assignment | ItemKind::Statement | ItemKind::Rule => self,
        }
    }

    /// Whether the text may end here.
    fn may_end(self) -> bool
        ensures { result ≡ may_end self }
    {
        self.begun && self.depth == 0
    }
}

/// Why the text may not end here, if it may not.
fn stop_at_end<'t>(position: Position) -> Option<Stop<'t>>
    ensures { ReadsFrom position [] [] (option_map stop_value result) }
{
    if position.may_end() {
        return None;
    }
    Some(Stop {
        kind: StopKind::Syntax,
        left: 0,
    })
}

/// The item at the front of these bytes, which aren't empty, and what is left after it.
fn next_item(
    alloc: Global,
    position: Position,
    bytes: &[u8],
) -> Result<(Item<'_>, &[u8]), Failure<'_>>
    requires { 0 < length bytes.now }
    ensures { Gives (λ x. (x.0.kind, record { parts = x.0.parts; rest = x.1.now })) result
        (item_at position (record { parts = []; rest = bytes.now })) }
{
    let mut reader = Reader::new(alloc, bytes);
    let kind = reader.item(position)?;
    let (parts, rest) = reader.finish();
    let (taken, _) = bytes.split_at(bytes.len().saturating_sub(rest.len()));
    Ok((Item::new(kind, parts, taken), rest))
}

/// Adds an item.
fn add<'t>(items: &mut Vec<Item<'t>>, item: Item<'t>) -> Result<(), NoMemory>
    ensures { IfOk result (λ _. items.new.items ≡ items.old.items ++ (item.entry ∷ [])) }
{
    match items.push(item) {
        Ok(()) => Ok(()),
        Err(_) => Err(NoMemory),
    }
}

/// Reads a text: its items up to its end or to its first fault.
pub fn read_items(alloc: Global, text: &[u8]) -> Result<ItemsRead<'_>, NoMemory>
    ensures { IfOk result (λ read. ReadsItems text.now read.items.items (option_map stop_value read.stop)) }
{
    let mut items = Vec::new(alloc);
    let mut position = Position {
        depth: 0,
        begun: false,
    };
    let mut rest = text;
    while !rest.is_empty() {
        match next_item(alloc, position, rest) {
            Ok((item, more)) => {
                position = position.behind(item.kind());
                add(&mut items, item)?;
                rest = more;
            }
            Err(Failure::NoMemory) => return Err(NoMemory),
            Err(Failure::At(stop)) => {
                let stop = Some(stop);
                return Ok(ItemsRead { items, stop });
            }
        }
    }
    let stop = stop_at_end(position);
    Ok(ItemsRead { items, stop })
}
