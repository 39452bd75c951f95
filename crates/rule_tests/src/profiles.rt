//! Profiles made of parts.
use names::{Perms, RuleKind};
use rule_making::{path_of, profile_of};
use rule_profile::Rule;
use rule_reader::read_path;
use std::alloc::Global;
use std::test::Fail;

/// A rule that allows these permissions on `/a`.
fn rule_of(alloc: Global, letters: &[u8]) -> Result<Rule, Fail> {
    let items = read_path(alloc, b"/a")?.ok_or("the text of a path")?;
    let path = path_of(items).ok_or("a path")?;
    let perms = if letters.is_empty() {
        Perms::NONE
    } else {
        Perms::from_letters(letters).ok_or("permissions")?
    };
    Ok(Rule::new(RuleKind::Allow, perms, path))
}

/// Whether a profile with this name and `count` rules can be made.
fn is_made(alloc: Global, name: &[u8], letters: &[u8], count: usize) -> Result<bool, Fail> {
    let mut rules = Vec::new(alloc);
    for _ in 0..count {
        rules.push(rule_of(alloc, letters)?)?;
    }
    Ok(profile_of(Vec::from_slice(alloc, name)?, rules).is_some())
}

#[test]
fn so_many_rules(rt: HostRuntime) -> Result<(), Fail> {
    assert!(&rt; is_made(rt.alloc(), b"p", b"r", 0)?);
    assert!(&rt; is_made(rt.alloc(), b"p", b"r", 1024)?);
    assert!(&rt; !is_made(rt.alloc(), b"p", b"r", 1025)?);
    Ok(())
}

#[test]
fn some_permission_and_none_that_conflict(rt: HostRuntime) -> Result<(), Fail> {
    for letters in [b"rwlkm".as_slice(), b"rlkma", b"a", b"w"] {
        assert!(&rt; is_made(rt.alloc(), b"p", letters, 1)?, "{letters:?}");
    }
    for letters in [b"".as_slice(), b"wa", b"rwlkma"] {
        assert!(&rt; !is_made(rt.alloc(), b"p", letters, 1)?, "{letters:?}");
    }
    Ok(())
}
