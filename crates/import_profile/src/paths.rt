//! The paths that a text is brought to.
ghost use Rattle.std.specs.Prelude.{◌≡◌, IfOk, IsTrue};
ghost use Rattle.rule_globs.specs.Tokens.{tokens_of, all_full};
ghost use Rattle.import_profile.specs.ImportedPaths.{settled_leads, leads_of_text, imported_paths};

use crate::one_way::is_read_one_way;
use crate::settled::{are_settled, groups_choose};
use apparmor_pieces::one_slash;
use names::NoMemory;
use rule_globs::{Item, RulePath};
use rule_making::led;
use rule_reader::read_path;
use std::alloc::Global;

/// The paths that a path with these items is led to, if its groups are choices and each of them is settled.
#[tactic(auto, using(crate::proofs::GroupLaws::same_leads))]
fn settled_leads(alloc: Global, items: &[Item]) -> Result<Vec<RulePath>, NoMemory>
    requires { IsTrue (all_full items.now) }
    ensures { IfOk result (λ paths. paths.items ≡ settled_leads (tokens_of items.now)) }
{
    // The first paths are moved into the rules whose texts are checked, so they are made again.
    if groups_choose(items) && are_settled(alloc, led(alloc, items)?)? {
        led(alloc, items)
    } else {
        Ok(Vec::new(alloc))
    }
}

/// The same of a text with one slash for each run.
fn leads_of_text(alloc: Global, text: &[u8]) -> Result<Vec<RulePath>, NoMemory>
    ensures { IfOk result (λ paths. paths.items ≡ leads_of_text text.now) }
{
    if !is_read_one_way(text) {
        return Ok(Vec::new(alloc));
    }
    match read_path(alloc, text)? {
        Some(items) => settled_leads(alloc, &items),
        None => Ok(Vec::new(alloc)),
    }
}

/// The paths that the text of a path in an AppArmor profile, with its variables in place, is brought to. Together they match the
/// names that the text's pattern matches ([`imported_paths_take_the_same`](crate::imported_paths_take_the_same)). There are none
/// where the text can't be read, or where AppArmor and this language may read it in two ways: by
/// [`is_read_alike`](rule_making::is_read_alike), where it has an `@` before a `{`, and where a group has one alternative. None
/// too where one of them, as it is written, would not be read again unchanged.
///
/// The time grows as the text, up to 16 times it: what follows a group that comes first is copied for each of its alternatives.
pub fn imported_paths(alloc: Global, text: &[u8]) -> Result<Vec<RulePath>, NoMemory>
    ensures { IfOk result (λ paths. paths.items ≡ imported_paths text.now) }
{
    let one = one_slash(alloc, text)?;
    leads_of_text(alloc, &one)
}
