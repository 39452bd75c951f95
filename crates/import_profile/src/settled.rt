//! Paths whose canonical text is read again unchanged.
ghost use Rattle.std.specs.Prelude.{◌≡◌, IfOk};
ghost use Rattle.std.specs.List.{list_all};
ghost use Rattle.rule_globs.specs.Tokens.{tokens_of};
ghost use Rattle.import_profile.specs.Groups.{groups_choose};
ghost use Rattle.import_profile.specs.Settled.{path_text, is_settled_text, is_settled};

use crate::one_way::is_read_one_way;
use apparmor_pieces::one_slash;
use apparmor_variables::MOST_BYTES;
use names::{NoMemory, Perms, RuleKind};
use rule_globs::{Item, RulePath};
use rule_making::groups_have_alternatives;
use rule_profile::Rule;
use rule_writer::write_rule;
use std::alloc::Global;

/// Whether each group has two alternatives or more.
#[tactic(auto, using(crate::proofs::GroupLaws::same_choice))]
pub(crate) fn groups_choose(items: &[Item]) -> bool
    ensures { result ≡ groups_choose (tokens_of items.now) }
{
    groups_have_alternatives(items)
}

/// Whether the text has one slash for each run, is read in one way, has no backslash at its end, and isn't too long.
fn is_settled_text(alloc: Global, text: &[u8]) -> Result<bool, NoMemory>
    ensures { IfOk result (λ settled. settled ≡ is_settled_text text.now) }
{
    let one = one_slash(alloc, text)?;
    let is_settled = one.as_slice() == text
        && is_read_one_way(text)
        && !text.ends_with(b"\\")
        && text.len() <= MOST_BYTES;
    Ok(is_settled)
}

/// The canonical text of a path.
fn path_text(alloc: Global, path: RulePath) -> Result<Vec<u8>, NoMemory>
    ensures { IfOk result (λ text. text.items ≡ path_text path) }
{
    // A rule without a permission: the path's text, with a quote before it and `" ,` after it.
    let rule = write_rule(alloc, &Rule::new(RuleKind::Allow, Perms::NONE, path))?;
    match Vec::from_slice(alloc, &rule[1..rule.len() - 3]) {
        Ok(text) => Ok(text),
        Err(_) => Err(NoMemory),
    }
}

/// Whether the path's groups are choices, and its canonical text is settled.
fn is_settled(alloc: Global, path: RulePath) -> Result<bool, NoMemory>
    ensures { IfOk result (λ settled. settled ≡ is_settled path) }
{
    if !groups_choose(path.items()) {
        return Ok(false);
    }
    let text = path_text(alloc, path)?;
    is_settled_text(alloc, &text)
}

/// Whether each of the paths is settled.
pub(crate) fn are_settled(alloc: Global, paths: Vec<RulePath>) -> Result<bool, NoMemory>
    ensures { IfOk result (λ settled. settled ≡ list_all is_settled paths.items) }
{
    for path in paths {
        if !is_settled(alloc, path)? {
            return Ok(false);
        }
    }
    Ok(true)
}
