//! Copies of paths and of items.
ghost use Rattle.std.specs.Prelude.{◌≡◌, ◌≤◌, ◌∷◌, [], ◌++◌, ◌==◌, ◌&&◌, not, IfOk, IsTrue, length, map};
ghost use Rattle.std.specs.List.{list_all};
ghost use Rattle.rule_globs.specs.Limits.{most_items};
ghost use Rattle.rule_globs.specs.Tokens.{tokens, tokens_of, is_full, all_full, with_commas};

use names::NoMemory;
use rule_globs::{Class, Item, RulePath};
use std::alloc::Global;

/// A copy of the path: it has the same tokens.
pub fn copy_of(alloc: Global, path: &RulePath) -> Result<RulePath, NoMemory>
    requires { length path.now ≤ most_items }
    ensures { IfOk result (λ copy. copy ≡ path.now) }
{
    let mut items = Vec::new(alloc);
    put_copies(alloc, &mut items, path.items())?;
    Ok(RulePath::new(items))
}

/// Adds a copy of each item: it has the same tokens. A group without alternatives, which no path has, becomes a group of one
/// alternative without items, so that each group that is added has an alternative.
#[cycle(copy)]
pub fn put_copies(alloc: Global, copies: &mut Vec<Item>, items: &[Item]) -> Result<(), NoMemory>
    ensures tokens { IfOk result (λ _. tokens_of copies.new.items ≡ tokens_of copies.old.items ++ tokens_of items.now) }
    ensures full { IfOk result (λ _. all_full copies.new.items ≡ all_full copies.old.items) }
{
    for item in items {
        let copy = item_copy(alloc, item)?;
        put(copies, copy)?;
    }
    Ok(())
}

#[cycle(copy)]
fn item_copy(alloc: Global, item: &Item) -> Result<Item, NoMemory>
    ensures tokens { IfOk result (λ copy. tokens copy ≡ tokens item.now) }
    ensures full { IfOk result (λ copy. IsTrue (is_full copy)) }
{
    match item {
        Item::Byte(byte) => Ok(Item::Byte(*byte)),
        Item::AnyByte => Ok(Item::AnyByte),
        Item::Class(class) => Ok(Item::Class(class_copy(alloc, class)?)),
        Item::Stars(stars) => Ok(Item::Stars(*stars)),
        Item::Group(alternatives) => {
            let copies = alternatives_copy(alloc, alternatives)?;
            Ok(Item::Group(with_some(alloc, copies)?))
        }
    }
}

/// A copy of each alternative.
#[cycle(copy)]
fn alternatives_copy(alloc: Global, alternatives: &[Vec<Item>]) -> Result<Vec<Vec<Item>>, NoMemory>
    ensures tokens { IfOk result (λ copies. map (λ items. tokens_of items.items) copies.items ≡ map (λ items. tokens_of items.items)
        alternatives.now) }
    ensures full { IfOk result (λ copies. IsTrue (list_all (λ items. all_full items.items) copies.items)) }
{
    let mut copies = Vec::new(alloc);
    for items in alternatives {
        let mut copy = Vec::new(alloc);
        put_copies(alloc, &mut copy, items)?;
        put_list(&mut copies, copy)?;
    }
    Ok(copies)
}

/// The alternatives of a group; one without items where there are none, which has the same tokens. A path has no group without
/// alternatives, but its items alone don't say so.
fn with_some(alloc: Global, alternatives: Vec<Vec<Item>>) -> Result<Vec<Vec<Item>>, NoMemory>
    requires { IsTrue (list_all (λ items. all_full items.items) alternatives.items) }
    ensures tokens { IfOk result (λ some. with_commas (map (λ items. tokens_of items.items) some.items)
        ≡ with_commas (map (λ items. tokens_of items.items) alternatives.items)) }
    ensures full { IfOk result
        (λ some. IsTrue (not (length some.items == 0) && list_all (λ items. all_full items.items) some.items)) }
{
    let mut some = alternatives;
    if some.is_empty() {
        put_list(&mut some, Vec::new(alloc))?;
    }
    Ok(some)
}

fn class_copy(alloc: Global, class: &Class) -> Result<Class, NoMemory>
    ensures { IfOk result (λ copy. copy ≡ class.now) }
{
    match Vec::from_slice(alloc, class.ranges()) {
        Ok(ranges) => Ok(Class::new(class.is_negated(), ranges)),
        Err(_) => Err(NoMemory),
    }
}

/// Adds an item.
pub(crate) fn put(items: &mut Vec<Item>, item: Item) -> Result<(), NoMemory>
    ensures { IfOk result (λ _. items.new.items ≡ items.old.items ++ item ∷ []) }
{
    match items.push(item) {
        Ok(()) => Ok(()),
        Err(_) => Err(NoMemory),
    }
}

/// Adds a list of items.
pub(crate) fn put_list(lists: &mut Vec<Vec<Item>>, items: Vec<Item>) -> Result<(), NoMemory>
    ensures { IfOk result (λ _. lists.new.items ≡ lists.old.items ++ items ∷ []) }
{
    match lists.push(items) {
        Ok(()) => Ok(()),
        Err(_) => Err(NoMemory),
    }
}
