//! Paths that begin with a slash, in the place of one that begins with a group.
ghost use Rattle.std.specs.Prelude.{◌≡◌, ◌<◌, ◌∷◌, ◌++◌, [], IfOk, IsTrue, map, drop, length, if◌then◌else◌};
ghost use Rattle.std.specs.List.{list_all};
ghost use Rattle.rule_globs.specs.Tokens.{tokens_of, all_full};
ghost use Rattle.rule_profile.specs.Readable.{is_path};
ghost use Rattle.rule_making.specs.Leads.{can_be_split, gives_slash, stands_alone, slash_before, group_leads, slash_leads, led};
ghost use Rattle.rule_making.specs.inner.Readable.{all_readable};

use crate::copies::{put, put_copies, put_list};
use crate::profiles::path_of;
use crate::shapes::{begins_with_slash, gives_slash, stands_alone};
use names::NoMemory;
use rule_globs::{Item, RulePath};
use std::alloc::Global;

/// The most paths that one is brought to. What follows the group is copied for each of them.
const MOST_PATHS: usize = 16;

fn all_give_slash(alternatives: &[Vec<Item>]) -> bool
    ensures { result ≡ list_all gives_slash (map (λ items. tokens_of items.items) alternatives.now) }
{
    for items in alternatives {
        if !gives_slash(items) {
            return false;
        }
    }
    true
}

fn all_stand_alone(follow: &[Item], alternatives: &[Vec<Item>]) -> bool
    ensures { result ≡ list_all (stands_alone (tokens_of follow.now)) (map (λ items. tokens_of items.items) alternatives.now) }
{
    for items in alternatives {
        if !stands_alone(follow, items) {
            return false;
        }
    }
    true
}

/// Whether each alternative makes a path with what follows the group, and they aren't too many.
fn can_be_split(alternatives: &[Vec<Item>], follow: &[Item]) -> bool
    ensures { result ≡ can_be_split (map (λ items. tokens_of items.items) alternatives.now) (tokens_of follow.now) }
{
    alternatives.len() <= MOST_PATHS && all_stand_alone(follow, alternatives)
}

/// The alternatives without their slashes.
fn without_slashes(alloc: Global, alternatives: &[Vec<Item>]) -> Result<Vec<Vec<Item>>, NoMemory>
    requires { IsTrue (list_all gives_slash (map (λ items. tokens_of items.items) alternatives.now)) }
    ensures tokens { IfOk result (λ bare. map (λ items. tokens_of items.items) bare.items
        ≡ map (drop 1) (map (λ items. tokens_of items.items) alternatives.now)) }
    ensures full { IfOk result (λ bare. IsTrue (list_all (λ items. all_full items.items) bare.items)) }
{
    let mut bare = Vec::new(alloc);
    for items in alternatives {
        let mut copy = Vec::new(alloc);
        if let [_, others @ ..] = items.as_slice() {
            put_copies(alloc, &mut copy, others)?;
        }
        put_list(&mut bare, copy)?;
    }
    Ok(bare)
}

/// The path with the slash before the group, out of each alternative.
fn slash_before(
    alloc: Global,
    alternatives: &[Vec<Item>],
    follow: &[Item],
) -> Result<Vec<Item>, NoMemory>
    requires slashes { IsTrue (list_all gives_slash (map (λ items. tokens_of items.items) alternatives.now)) }
    requires some { 0 < length alternatives.now }
    ensures tokens { IfOk result (λ items. tokens_of items.items ≡ slash_before (map (λ items. tokens_of items.items) alternatives.now)
        (tokens_of follow.now)) }
    ensures full { IfOk result (λ items. IsTrue (all_full items.items)) }
{
    let mut items = Vec::new(alloc);
    put(&mut items, Item::Byte(b'/'))?;
    put(
        &mut items,
        Item::Group(without_slashes(alloc, alternatives)?),
    )?;
    put_copies(alloc, &mut items, follow)?;
    Ok(items)
}

/// Adds the path with these items if it can be read, and answers whether it can.
fn put_path(paths: &mut Vec<RulePath>, items: Vec<Item>) -> Result<bool, NoMemory>
    requires { IsTrue (all_full items.items) }
    ensures readable { IfOk result (λ readable. readable ≡ is_path (tokens_of items.items)) }
    ensures path { IfOk result
        (λ _. paths.new.items ≡ (if is_path (tokens_of items.items) then paths.old.items ++ tokens_of items.items ∷ []
        else paths.old.items)) }
{
    let Some(path) = path_of(items) else {
        return Ok(false);
    };
    match paths.push(path) {
        Ok(()) => Ok(true),
        Err(_) => Err(NoMemory),
    }
}

/// The path with these items alone, if it can be read.
fn one_path(alloc: Global, items: Vec<Item>) -> Result<Vec<RulePath>, NoMemory>
    requires { IsTrue (all_full items.items) }
    ensures { IfOk result (λ paths. paths.items ≡ all_readable (tokens_of items.items ∷ [])) }
{
    let mut paths = Vec::new(alloc);
    put_path(&mut paths, items)?;
    Ok(paths)
}

/// A path for each alternative: with what follows the group.
fn split(
    alloc: Global,
    alternatives: &[Vec<Item>],
    follow: &[Item],
) -> Result<Vec<RulePath>, NoMemory>
    ensures { IfOk result
        (λ paths. paths.items ≡ all_readable (map (λ items. tokens_of items.items ++ tokens_of follow.now) alternatives.now)) }
{
    let mut paths = Vec::new(alloc);
    for items in alternatives {
        let mut path = Vec::new(alloc);
        put_copies(alloc, &mut path, items)?;
        put_copies(alloc, &mut path, follow)?;
        if !put_path(&mut paths, path)? {
            return Ok(Vec::new(alloc));
        }
    }
    Ok(paths)
}

/// The paths of a group and what follows it.
fn group_paths(
    alloc: Global,
    alternatives: &[Vec<Item>],
    follow: &[Item],
) -> Result<Vec<RulePath>, NoMemory>
    requires { 0 < length alternatives.now }
    ensures { IfOk result (λ paths. paths.items ≡ all_readable (group_leads (map (λ items. tokens_of items.items) alternatives.now)
        (tokens_of follow.now))) }
{
    if all_give_slash(alternatives) {
        one_path(alloc, slash_before(alloc, alternatives, follow)?)
    } else if can_be_split(alternatives, follow) {
        split(alloc, alternatives, follow)
    } else {
        Ok(Vec::new(alloc))
    }
}

/// The path with these items, if it begins with a slash and can be read.
fn slash_path(alloc: Global, items: &[Item]) -> Result<Vec<RulePath>, NoMemory>
    ensures { IfOk result (λ paths. paths.items ≡ all_readable (slash_leads (tokens_of items.now))) }
{
    if !begins_with_slash(items) {
        return Ok(Vec::new(alloc));
    }
    let mut copy = Vec::new(alloc);
    put_copies(alloc, &mut copy, items)?;
    one_path(alloc, copy)
}

/// The paths that begin with a slash, and match together the names that a path with these items matches
/// ([`led_paths_take_the_same`](crate::led_paths_take_the_same)): the path itself where it begins with a slash; where it begins
/// with a group whose alternatives all begin with a slash, and none with a slash and a run of stars, one path with the slash
/// before the group; else one path for each alternative, where these are 16 at most, each then begins with a slash and the seam
/// makes neither a run of stars nor `//`. None where it is otherwise, and where a path that was made can't be read.
///
/// The time grows as the items of the path.
pub fn led(alloc: Global, items: &[Item]) -> Result<Vec<RulePath>, NoMemory>
    requires { IsTrue (all_full items.now) }
    ensures { IfOk result (λ paths. paths.items ≡ led items.now) }
{
    let [first, follow @ ..] = items else {
        return Ok(Vec::new(alloc));
    };
    match first {
        Item::Group(alternatives) => group_paths(alloc, alternatives, follow),
        _ => slash_path(alloc, items),
    }
}
