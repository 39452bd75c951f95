//! The tests of a path's items, in one pass.
ghost use Rattle.std.specs.Prelude.{◌≡◌, map};
ghost use Rattle.rule_globs.specs.Tokens.{tokens, tokens_of, with_commas};
ghost use Rattle.rule_profile.specs.Readable.{is_path};
ghost use Rattle.rule_making.specs.inner.TokenTests.{walk};

use crate::place::{Place, Wanted};
use rule_globs::{Item, MOST_ITEMS};

/// After these items, if they are allowed there.
#[cycle(walk)]
fn behind_items(items: &[Item], place: Place) -> Option<Place>
    ensures { result ≡ walk (tokens_of items.now) place }
{
    let mut place = place;
    for item in items {
        place = behind_item(item, place)?;
    }
    Some(place)
}

#[cycle(walk)]
fn behind_item(item: &Item, place: Place) -> Option<Place>
    ensures { result ≡ walk (tokens item.now) place }
{
    match item {
        Item::Byte(byte) => place.behind_byte(*byte),
        Item::AnyByte => place.behind_any_byte(),
        Item::Class(class) => place.behind_class(class),
        Item::Stars(stars) => place.behind_stars(*stars),
        Item::Group(alternatives) => {
            behind_alternatives(alternatives, place.behind_opening()?)?.behind_closing()
        }
    }
}

/// After the alternatives of a group, with a comma between each two.
#[cycle(walk)]
fn behind_alternatives(alternatives: &[Vec<Item>], place: Place) -> Option<Place>
    ensures { result ≡ walk (with_commas (map (λ items. tokens_of items.items) alternatives.now)) place }
{
    let [first, others @ ..] = alternatives else {
        return Some(place);
    };
    let mut place = behind_items(first, place)?;
    for items in others {
        place = behind_items(items, place.behind_between()?)?;
    }
    Some(place)
}

/// Whether a path with these items could be read: it begins with a slash, has at most 1,024 items, commas and braces, and
/// each of them may be where it is (a run of stars, say, is strict just between a plain slash and another or the end).
///
/// The time grows as the items. Nothing is allocated.
pub fn is_path(items: &[Item]) -> bool
    ensures { result ≡ is_path (tokens_of items.now) }
{
    let start = Place {
        wanted: Wanted::FirstSlash,
        after_slash: false,
        depth: 0,
        room: MOST_ITEMS,
    };
    match behind_items(items, start) {
        Some(place) => place.is_end(),
        None => false,
    }
}
