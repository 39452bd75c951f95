//! Profiles made and refused, and what is published of them.
use super::*;
use rule_text::Verdict;
use std::sync::Arc;

// Why making a profile of these rules is refused, if it is.
fn fault_of(alloc: Global, rules: &[u8]) -> Result<Option<MakeFault>, Fail> {
    let profile = profile_of(alloc, rules)?;
    Ok(CompiledProfile::make(alloc, profile).err())
}

// Whether a profile is called `p`, and has this many states and rules.
fn has_counts(compiled: &CompiledProfile, states: u32, rules: usize) -> bool {
    let profile = compiled.profile();
    compiled.table().states() == states
        && profile.name() == b"p".as_slice()
        && profile.rules().len() == rules
}

#[test]
fn too_many_states(rt: HostRuntime) -> Result<(), Fail> {
    let alloc = rt.alloc();
    let fault = fault_of(alloc, b"/**a????????????? r,")?;
    assert_eq!(rt; fault, Some(MakeFault::TooManyStates));
    let compiled = compiled_of(alloc, b"/**a???????????? r,")?;
    assert!(rt; has_counts(&compiled, 8_194, 1));
    Ok(())
}

fn expect_told(
    rt: &impl Abort,
    alloc: Global,
    fault: MakeFault,
    number: u16,
    text: &str,
) -> Result<(), Fail> {
    let told = fault.to_string(alloc)?;
    assert!(rt; fault.number() == number && told.as_str() == text);
    Ok(())
}

#[test]
fn faults(rt: HostRuntime) -> Result<(), Fail> {
    tables_of_rules_tell_their_verdicts();
    let alloc = rt.alloc();
    expect_told(&rt, alloc, MakeFault::TooManyStates, 1, "too many states")?;
    expect_told(&rt, alloc, MakeFault::NoMemory, 2, "no memory")
}

// Whether a profile lets this name be read, and no other one.
fn lets_read(profile: &AnyProfile, name: &[u8], other: &[u8]) -> bool {
    let read = Perms::NONE.with(Permission::Read);
    judge(profile.table(), name, read) == Verdict::Allowed
        && judge(profile.table(), other, read) != Verdict::Allowed
}

fn any_compiled(alloc: Global, rules: &[u8]) -> Result<AnyProfile, Fail> {
    Ok(AnyProfile::Compiled(compiled_of(alloc, rules)?))
}

fn any_loaded(alloc: Global, rules: &[u8]) -> Result<AnyProfile, Fail> {
    let compiled = compiled_of(alloc, rules)?;
    Ok(AnyProfile::Loaded(loaded_of(alloc, &compiled)?))
}

fn expect_loaded(rt: &impl Abort, alloc: Global) -> Result<(), Fail> {
    let loaded = any_loaded(alloc, b"/a r,")?;
    assert!(rt; lets_read(&loaded, b"/a", b"/b") && loaded.table().states() == 4);
    Ok(())
}

#[test]
fn profiles_of_either_origin(rt: HostRuntime) -> Result<(), Fail> {
    let compiled = any_compiled(rt.alloc(), b"/b r,")?;
    assert!(rt; lets_read(&compiled, b"/b", b"/a"));
    expect_loaded(&rt, rt.alloc())
}

#[test]
fn changes(rt: HostRuntime) -> Result<(), Fail> {
    let alloc = rt.alloc();
    let profile = Arc::new(alloc, any_compiled(alloc, b"/b r,")?)?;
    let change = PolicyChange::Replace(b"p".to_vec(alloc)?, profile);
    let PolicyChange::Replace(name, profile) = change else {
        return Err(Fail::from("another change"));
    };
    assert!(rt; lets_read(&profile, b"/b", b"/a"));
    let change = PolicyChange::Remove(name);
    assert!(rt; matches!(&change, PolicyChange::Remove(_)));
    Ok(())
}
