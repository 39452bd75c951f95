//! Profiles made of the rules of another, and the profile of a pattern, by their canonical texts.
use derived_profiles::{allow_rules, alone, of_pattern, reversed, without_rules};
use rule_text::{Profile, read, write};
use std::alloc::Global;
use std::test::Fail;

const SOURCE: &[u8] =
    b"profile \"p\" {\n  \"/a\" r,\n  deny \"/{b,[^c-d],*{,?}}/**\" wl,\n  \"/c\" rk,\n}\n";

const REVERSED: &[u8] =
    b"profile \"p\" {\n  \"/c\" rk,\n  deny \"/{b,[^c-d],*{,?}}/**\" wl,\n  \"/a\" r,\n}\n";

const SECOND: &[u8] = b"profile \"p\" {\n  \"/{b,[^c-d],*{,?}}/**\" wl,\n}\n";

const ALLOW_RULES: &[u8] = b"profile \"p\" {\n  \"/a\" r,\n  \"/c\" rk,\n}\n";

fn source(alloc: Global) -> Result<Profile, Fail> {
    Ok(read(alloc, SOURCE)?)
}

#[test]
fn last_rule_first(rt: HostRuntime) -> Result<(), Fail> {
    let alloc = rt.alloc();
    let profile = reversed(alloc, &source(alloc)?)?;
    assert_eq!(&rt; write(alloc, &profile)?.as_slice(), REVERSED);
    Ok(())
}

#[test]
fn one_rule(rt: HostRuntime) -> Result<(), Fail> {
    let alloc = rt.alloc();
    let profile = source(alloc)?;
    if profile.rules().len() >= 2 {
        let second = alone(alloc, &profile, 2)?;
        assert_eq!(&rt; write(alloc, &second)?.as_slice(), SECOND);
    }
    Ok(())
}

#[test]
fn no_deny_rules(rt: HostRuntime) -> Result<(), Fail> {
    let alloc = rt.alloc();
    let profile = allow_rules(alloc, &source(alloc)?)?;
    assert_eq!(&rt; write(alloc, &profile)?.as_slice(), ALLOW_RULES);
    Ok(())
}

#[test]
fn no_rules(rt: HostRuntime) -> Result<(), Fail> {
    let alloc = rt.alloc();
    let profile = without_rules(alloc)?;
    assert_eq!(&rt;
        write(alloc, &profile)?.as_slice(),
        b"profile \"empty\" {\n}\n".as_slice()
    );
    Ok(())
}

#[test]
fn patterns(rt: HostRuntime) -> Result<(), Fail> {
    let alloc = rt.alloc();
    let profile = of_pattern(alloc, b"/home/{a b,c}/*")?.ok_or("a path")?;
    assert_eq!(&rt;
        write(alloc, &profile)?.as_slice(),
        b"profile \"pattern\" {\n  \"/home/{a b,c}/*\" r,\n}\n".as_slice()
    );
    for text in [b"".as_slice(), b"a", b"{/a,/b}", b"/[", b"/a\""] {
        assert!(&rt; of_pattern(alloc, text)?.is_none(), "{text:?}");
    }
    Ok(())
}
