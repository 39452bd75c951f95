//! Lists of many variables, and texts that are long, or too long.
use apparmor_variables::{ExpandFault, Lists, Variable};
use std::alloc::Global;
use std::test::Fail;

/// Variables with these names, each with one value.
fn one_value_each<'t>(
    alloc: Global,
    names: &'t [String],
    values: &'t [String],
) -> Result<Lists<'t>, Fail> {
    let mut variables = Vec::new(alloc);
    for (name, value) in names.iter().zip(values) {
        let mut one = Vec::new(alloc);
        one.push(value.as_bytes())?;
        variables.push(Variable::new(alloc, name.as_bytes(), one)?)?;
    }
    Ok(Lists::new(alloc, variables)?)
}

/// `V0`, `V1` and so on.
fn numbered(alloc: Global, count: u32) -> Result<Vec<String>, Fail> {
    let mut names = Vec::new(alloc);
    for number in 0..count {
        names.push(format!(in alloc; "V{number}")?)?;
    }
    Ok(names)
}

#[test]
fn a_long_chain(rt: HostRuntime) -> Result<(), Fail> {
    let alloc = rt.alloc();
    let names = numbered(alloc, 20_000)?;
    let mut values = Vec::new(alloc);
    for number in 1..20_000u32 {
        values.push(format!(in alloc; "@{{V{number}}}")?)?;
    }
    values.push(format!(in alloc; "end")?)?;
    let mut lists = one_value_each(alloc, &names, &values)?;
    let text = lists.substitute(alloc, b"/@{V0}")?;
    assert!(rt; text.as_slice() == b"/end".as_slice());
    Ok(())
}

#[test]
fn a_long_ring(rt: HostRuntime) -> Result<(), Fail> {
    let alloc = rt.alloc();
    let names = numbered(alloc, 20_000)?;
    let mut values = Vec::new(alloc);
    for number in 1..20_000u32 {
        values.push(format!(in alloc; "@{{V{number}}}")?)?;
    }
    values.push(format!(in alloc; "@{{V7}}")?)?;
    let mut lists = one_value_each(alloc, &names, &values)?;
    let told = matches!(
        lists.substitute(alloc, b"/@{V0}"),
        Err(ExpandFault::Cycle { name: b"V7" })
    );
    assert!(rt; told);
    Ok(())
}

#[test]
fn each_list_is_made_once(rt: HostRuntime) -> Result<(), Fail> {
    let alloc = rt.alloc();
    let names = numbered(alloc, 1_000)?;
    let mut values = Vec::new(alloc);
    values.push(String::new(alloc))?;
    for number in 0..999u32 {
        values.push(format!(in alloc; "@{{V{number}}}@{{V{number}}}")?)?;
    }
    let mut lists = one_value_each(alloc, &names, &values)?;
    let text = lists.substitute(alloc, b"/@{V999}")?;
    assert!(rt; text.as_slice() == b"/".as_slice());
    Ok(())
}

#[test]
fn most_bytes(rt: HostRuntime) -> Result<(), Fail> {
    let alloc = rt.alloc();
    let long = vec![in alloc; b'a'; 16_384]?;
    let longer = vec![in alloc; b'a'; 16_385]?;
    let mut variables = Vec::new(alloc);
    for (name, value) in [(b"L".as_slice(), &long), (b"M".as_slice(), &longer)] {
        let mut one = Vec::new(alloc);
        one.push(value.as_slice())?;
        variables.push(Variable::new(alloc, name, one)?)?;
    }
    let mut lists = Lists::new(alloc, variables)?;
    let text = lists.substitute(alloc, b"@{L}")?;
    assert!(rt; text.len() == 16_384);
    for path in [b"@{L}/".as_slice(), b"/@{L}", b"@{M}", b"@{L}@{M}"] {
        assert!(rt; matches!(lists.substitute(alloc, path), Err(ExpandFault::TooLong)));
    }
    let told = matches!(
        lists.substitute(alloc, b"@{L}@{L}@{U}"),
        Err(ExpandFault::Undefined { name: b"U" })
    );
    assert!(rt; told);
    Ok(())
}

#[test]
fn texts_are_measured(rt: HostRuntime) -> Result<(), Fail> {
    let alloc = rt.alloc();
    let mut values = Vec::new(alloc);
    values.push(b"/x/".as_slice())?;
    values.push(b"y".as_slice())?;
    let mut variables = Vec::new(alloc);
    variables.push(Variable::new(alloc, b"A", values)?)?;
    let mut lists = Lists::new(alloc, variables)?;
    for path in [b"/@{A}/@{A}".as_slice(), b"@{A}", b"/z"] {
        let length = lists.measure(alloc, path)?;
        assert_eq!(rt; length, lists.substitute(alloc, path)?.len());
    }
    let told = matches!(
        lists.measure(alloc, b"/@{U}"),
        Err(ExpandFault::Undefined { name: b"U" })
    );
    assert!(rt; told);
    Ok(())
}
