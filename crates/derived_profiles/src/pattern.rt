//! The profile of a pattern.
ghost use Rattle.std.specs.Prelude.{◌≡◌, IfOk, IsTrue, option_map};
ghost use Rattle.rule_profile.specs.Profile.{profile_value};
ghost use Rattle.rule_profile.specs.Readable.{is_path};
ghost use Rattle.derived_profiles.specs.Pattern.{pattern_path, of_pattern, profile_of_path};

use crate::profiles::{one_rule, profile_with};
use names::{NoMemory, Permission, Perms, RuleKind};
use rule_globs::RulePath;
use rule_making::path_of;
use rule_profile::{Profile, Rule};
use rule_reader::read_path;
use std::alloc::Global;

/// The profile whose one rule allows to read the names that a pattern matches: the text is the path of a rule, as it is written
/// within quotes, and begins with a slash. None exactly if it is no such path. The profile's name is `pattern`.
pub fn of_pattern(alloc: Global, text: &[u8]) -> Result<Option<Profile>, NoMemory>
    ensures { IfOk result (λ found. option_map profile_value found ≡ of_pattern text.now) }
{
    match pattern_path(alloc, text)? {
        Some(path) => Ok(Some(profile_of_path(alloc, path)?)),
        None => Ok(None),
    }
}

/// The path that the text is, if it is one.
fn pattern_path(alloc: Global, text: &[u8]) -> Result<Option<RulePath>, NoMemory>
    ensures { IfOk result (λ path. path ≡ pattern_path text.now) }
{
    match read_path(alloc, text)? {
        Some(items) => Ok(path_of(items)),
        None => Ok(None),
    }
}

fn profile_of_path(alloc: Global, path: RulePath) -> Result<Profile, NoMemory>
    requires { IsTrue (is_path path) }
    ensures { IfOk result (λ profile. profile_value profile ≡ profile_of_path path) }
{
    let read = Perms::NONE.with(Permission::Read);
    let rules = one_rule(alloc, Rule::new(RuleKind::Allow, read, path))?;
    profile_with(alloc, b"pattern", rules)
}
