//! What each rule of a profile decides, worked out by hand.
use names::Perms;
use rule_influence::{RulePair, decided};
use rule_reader::{Profile, read};
use std::alloc::Global;
use std::process::Abort;
use std::test::Fail;
use test_parts::profile_text;

/// The profile of the rules of a text.
pub(crate) fn profile(alloc: Global, rules: &[u8]) -> Result<Profile, Fail> {
    Ok(read(alloc, &profile_text(alloc, rules)?)?)
}

// The rules of a profile, and for each of them the letters of what it decides.
#[derive(Clone, Copy)]
struct Row<'a> {
    rules: &'a [u8],
    letters: &'a [&'a [u8]],
}

fn expect_row(rt: &impl Abort, alloc: Global, row: Row<'_>) -> Result<(), Fail> {
    let pair = RulePair::of(alloc, profile(alloc, row.rules)?)?;
    let found = decided(alloc, &pair)?;
    assert!(rt; found.len() == row.letters.len());
    for (perms, letters) in found.iter().zip(row.letters) {
        assert!(rt; Perms::from_letters(letters) == Some(*perms));
    }
    Ok(())
}

// Allow rules: each decides what it alone allows to some name. Who may write may append.
#[test]
fn allow_rules(rt: HostRuntime) -> Result<(), Fail> {
    let alloc = rt.alloc();
    let rows: [(&[u8], &[&[u8]]); 9] = [
        (b"", &[]),
        (b"/ r,", &[b"r"]),
        (b"/log rw,", &[b"rwa"]),
        (b"/log w, /log a,", &[b"w", b""]),
        (b"/a r, /a r,", &[b"", b""]),
        (b"/a/b r, /a/* r,", &[b"", b"r"]),
        (b"/a/* r, /a/b r,", &[b"r", b""]),
        (b"/a/[ab] r, /a/[bc] r, /a/b r,", &[b"r", b"r", b""]),
        (b"/a/[a-c] rk, /a/a r, /a/[bc] r,", &[b"k", b"", b""]),
    ];
    for (rules, letters) in rows {
        expect_row(&rt, alloc, Row { rules, letters })?;
    }
    Ok(())
}

// Deny rules: each decides what it alone denies to some name that an allow rule allows it to.
#[test]
fn deny_rules(rt: HostRuntime) -> Result<(), Fail> {
    let alloc = rt.alloc();
    let rows: [(&[u8], &[&[u8]]); 7] = [
        (
            b"/home/*/** rw, deny /home/*/.ssh/** w, /home/*/.ssh/id_* r,",
            &[b"rwa", b"wa", b""],
        ),
        (b"deny /a r,", &[b""]),
        (b"/a r, deny /b r,", &[b"r", b""]),
        (b"/a rw, deny /a w,", &[b"r", b"wa"]),
        (b"deny /a r, /a r, /a r,", &[b"r", b"", b""]),
        (b"/a/* r, deny /a/b r, deny /a/b r,", &[b"r", b"", b""]),
        (
            b"deny /a/[bc] r, /a/* r, deny /a/[cd] r, deny /a/c r,",
            &[b"r", b"r", b"r", b""],
        ),
    ];
    for (rules, letters) in rows {
        expect_row(&rt, alloc, Row { rules, letters })?;
    }
    Ok(())
}
