//! Components that are split off.
use names::split_component;
use std::test::Fail;

#[test]
fn first_component_of_a_text(rt: HostRuntime) -> Result<(), Fail> {
    let (first, rest) = split_component(b"//a/b/").ok_or("a component")?;
    assert!(rt; first == b"a".as_slice() && rest == b"/b/".as_slice());
    let (last, rest) = split_component(b"//").ok_or("the closing dot")?;
    assert!(rt; last == b".".as_slice() && rest.is_empty());
    assert!(rt; split_component(b"").is_none());
    Ok(())
}
