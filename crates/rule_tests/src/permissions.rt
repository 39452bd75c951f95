//! Sets of permissions, and their letters.
use crate::print::is_printed;
use names::{Permission, Perms};
use std::alloc::Global;
use std::process::Abort;
use std::test::Fail;

fn expect_letters(rt: &impl Abort, alloc: Global, rows: &[(Perms, &str)]) -> Result<(), Fail> {
    for (perms, letters) in rows {
        assert!(rt; is_printed(alloc, perms, letters)?, "{perms} for {letters}");
    }
    Ok(())
}

#[test]
fn letters_of_permissions(rt: HostRuntime) -> Result<(), Fail> {
    let some = Perms::from_letters(b"mwrwm").ok_or("letters")?;
    let all = Perms::from_letters(b"amklwr").ok_or("letters")?;
    expect_letters(
        &rt,
        rt.alloc(),
        &[
            (some, "rwm"),
            (all, "rwlkma"),
            (all.without(some), "lka"),
            (Perms::NONE.with(Permission::Link), "l"),
        ],
    )
}

#[test]
fn sets_of_permissions(rt: HostRuntime) -> Result<(), Fail> {
    let some = Perms::from_letters(b"mwrwm").ok_or("letters")?;
    let all = Perms::from_letters(b"amklwr").ok_or("letters")?;
    assert!(rt; some.contains(Permission::Map) && !some.contains(Permission::Lock));
    assert!(rt; Perms::NONE.is_empty() && !some.is_empty());
    assert!(rt; all.intersects(some) && !all.without(some).intersects(some));
    Ok(())
}

#[test]
fn letters_that_are_read(rt: HostRuntime) {
    assert_eq!(rt; Perms::from_letters(b"rx"), None);
    assert_eq!(rt; Perms::from_letters(b""), Some(Perms::NONE));
}

/// Each row has letters, those that a rule with them holds, and whether they conflict.
#[test]
fn write_holds_append(rt: HostRuntime) -> Result<(), Fail> {
    let rows = [
        ("", "", false),
        ("rlkm", "rlkm", false),
        ("w", "wa", false),
        ("ra", "ra", false),
        ("rw", "rwa", false),
        ("wa", "wa", true),
        ("rwlkma", "rwlkma", true),
    ];
    for (letters, held, conflict) in rows {
        let perms = Perms::from_letters(letters.as_bytes()).ok_or("letters")?;
        assert_eq!(&rt; perms.conflict(), conflict, "{letters}");
        assert!(&rt; is_printed(rt.alloc(), &perms.held(), held)?, "{letters}");
    }
    Ok(())
}

#[test]
fn permissions_by_letter(rt: HostRuntime) {
    for permission in &Permission::ALL {
        let again = Permission::from_letter(permission.letter());
        assert_eq!(rt; again, Some(*permission));
    }
}
