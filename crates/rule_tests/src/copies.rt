//! Copies of paths and of items, by the canonical texts of rules on them.
use names::{NoMemory, Permission, Perms, RuleKind};
use rule_globs::{Item, RulePath};
use rule_making::{copy_of, path_of, put_copies};
use rule_profile::Rule;
use rule_reader::read_path;
use rule_text::write_rule;
use std::alloc::Global;
use std::test::Fail;

/// A copy of the path that the text is.
fn copy_of_text(alloc: Global, text: &[u8]) -> Result<Option<RulePath>, NoMemory> {
    match read_path(alloc, text)? {
        Some(items) => Ok(Some(copy_of(alloc, &RulePath::new(items))?)),
        None => Ok(None),
    }
}

/// The rule that allows to read what the path matches.
fn text_of(alloc: Global, path: RulePath) -> Result<Vec<u8>, NoMemory> {
    let read = Perms::NONE.with(Permission::Read);
    write_rule(alloc, &Rule::new(RuleKind::Allow, read, path))
}

#[test]
fn path(rt: HostRuntime) -> Result<(), Fail> {
    let alloc = rt.alloc();
    let copy = copy_of_text(alloc, b"/{b,[^c-d],*{,?}}/**")?.ok_or("a path")?;
    let text = text_of(alloc, copy)?;
    assert_eq!(&rt; text.as_slice(), b"\"/{b,[^c-d],*{,?}}/**\" r,".as_slice());
    Ok(())
}

#[test]
fn items_behind_others(rt: HostRuntime) -> Result<(), Fail> {
    let alloc = rt.alloc();
    let mut items = read_path(alloc, b"/a/")?.ok_or("the text of a path")?;
    let others = read_path(alloc, b"{b,[^c-d],*{,?}}/**")?.ok_or("the text of a path")?;
    put_copies(alloc, &mut items, &others)?;
    let text = text_of(alloc, path_of(items).ok_or("a path")?)?;
    assert_eq!(&rt;
        text.as_slice(),
        b"\"/a/{b,[^c-d],*{,?}}/**\" r,".as_slice()
    );
    Ok(())
}

/// Its copy has one alternative, without items.
#[test]
fn group_without_alternatives(rt: HostRuntime) -> Result<(), Fail> {
    let alloc = rt.alloc();
    let mut items = read_path(alloc, b"/a")?.ok_or("the text of a path")?;
    put_copies(alloc, &mut items, &[Item::Group(Vec::new(alloc))])?;
    let text = text_of(alloc, path_of(items).ok_or("a path")?)?;
    assert_eq!(&rt; text.as_slice(), b"\"/a{}\" r,".as_slice());
    Ok(())
}
