//! Who stands in for rules that decide nothing, worked out by hand.
use crate::influence::profile;
use names::Perms;
use rule_influence::{IdleCase, RulePair, stand_ins};
use std::alloc::Global;
use std::process::Abort;
use std::test::Fail;

// The rules of a profile, idle rules with the letters that they are idle for, and the stand-ins of each of them.
#[derive(Clone, Copy)]
struct Row<'a> {
    rules: &'a [u8],
    cases: &'a [(u16, &'a [u8])],
    lists: &'a [&'a [u16]],
}

fn expect_row(rt: &impl Abort, alloc: Global, row: Row<'_>) -> Result<(), Fail> {
    let pair = RulePair::of(alloc, profile(alloc, row.rules)?)?;
    let mut cases = Vec::new(alloc);
    for (rule, letters) in row.cases {
        let perms = Perms::from_letters(letters).ok_or("letters")?;
        cases.push(IdleCase { rule: *rule, perms })?;
    }
    let found = stand_ins(alloc, &pair, &cases)?;
    assert!(rt; found.len() == row.lists.len());
    for (list, numbers) in found.iter().zip(row.lists) {
        assert!(rt; list.as_slice() == *numbers);
    }
    Ok(())
}

// Equal rules stand in for each other: the first for the others, and the last for the first.
#[test]
fn equal_rules(rt: HostRuntime) -> Result<(), Fail> {
    let alloc = rt.alloc();
    let rows: [(&[u8], &[(u16, &[u8])], &[&[u16]]); 4] = [
        (b"/a r,", &[], &[]),
        (b"/a r, /a r,", &[(1, b"r"), (2, b"r")], &[&[2], &[1]]),
        (
            b"/a r, /a r, /a r,",
            &[(3, b"r"), (2, b"r"), (1, b"r")],
            &[&[1], &[1], &[3]],
        ),
        (
            b"/a r, deny /b w, /b w, deny /b w,",
            &[(4, b"w"), (2, b"w")],
            &[&[2], &[4]],
        ),
    ];
    for (rules, cases, lists) in rows {
        expect_row(
            &rt,
            alloc,
            Row {
                rules,
                cases,
                lists,
            },
        )?;
    }
    Ok(())
}

// Several rules together, each for some of the names or permissions.
#[test]
fn several_rules(rt: HostRuntime) -> Result<(), Fail> {
    let alloc = rt.alloc();
    let rows: [(&[u8], &[(u16, &[u8])], &[&[u16]]); 5] = [
        (
            b"/a/[bc] r, /a/b r, /a/[a-c] r, /a/c r, /a/d r,",
            &[(3, b"r"), (2, b"r")],
            &[&[1], &[1]],
        ),
        (b"/a/[bc] r, /a/b r, /a/c r,", &[(1, b"r")], &[&[2, 3]]),
        (
            b"/a/c r, /a/d w, /a/[a-d] rw, /a/[ab] rwk,",
            &[(3, b"r")],
            &[&[1, 4]],
        ),
        (b"/a rw, /a r, /a w,", &[(1, b"rwa")], &[&[2, 3]]),
        (b"/a rw, /a r, /a w,", &[(1, b"w"), (1, b"k")], &[&[3], &[]]),
    ];
    for (rules, cases, lists) in rows {
        expect_row(
            &rt,
            alloc,
            Row {
                rules,
                cases,
                lists,
            },
        )?;
    }
    Ok(())
}

// Names that a deny rule denies don't matter for allow rules, nor do those that no rule allows for deny rules.
#[test]
fn names_that_do_not_matter(rt: HostRuntime) -> Result<(), Fail> {
    let alloc = rt.alloc();
    let rows: [(&[u8], &[(u16, &[u8])], &[&[u16]]); 5] = [
        (
            b"/home/*/** rw, deny /home/*/.ssh/** w, /home/*/.ssh/id_* r,",
            &[(3, b"r")],
            &[&[1]],
        ),
        (
            b"/a r, /a r, deny /* r,",
            &[(1, b"r"), (2, b"r")],
            &[&[], &[]],
        ),
        (
            b"deny /a r, deny /a r,",
            &[(1, b"r"), (2, b"r")],
            &[&[], &[]],
        ),
        (
            b"deny /a/[bc] r, deny /a/[cd] r, /a/b r, deny /a/b r, deny /a/c r,",
            &[(4, b"r"), (2, b"r"), (5, b"r")],
            &[&[1], &[], &[]],
        ),
        (
            b"/a r, /a w,",
            &[(3, b"r"), (0, b"r"), (1, b"w")],
            &[&[], &[], &[]],
        ),
    ];
    for (rules, cases, lists) in rows {
        expect_row(
            &rt,
            alloc,
            Row {
                rules,
                cases,
                lists,
            },
        )?;
    }
    Ok(())
}
