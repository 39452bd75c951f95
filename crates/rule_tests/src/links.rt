//! Hard links by what their names are allowed.
use crate::print::is_printed;
use names::Perms;
use rule_text::{LinkVerdict, Verdict, judge_link};
use std::process::Abort;
use std::test::Fail;

/// The set of these letters.
fn perms(letters: &[u8]) -> Result<Perms, Fail> {
    Ok(Perms::from_letters(letters).ok_or("a letter of no permission")?)
}

/// The verdict on a link whose old name is allowed the permissions `old`, and whose new name is allowed `new`.
fn verdict_of(old: &[u8], new: &[u8]) -> Result<LinkVerdict, Fail> {
    Ok(judge_link(perms(old)?, perms(new)?, Verdict::Allowed))
}

/// The verdict if these permissions are what goes beyond the old name's.
fn beyond(letters: &[u8]) -> Result<LinkVerdict, Fail> {
    match perms(letters)? {
        extra if extra.is_empty() => Ok(LinkVerdict::Fine),
        extra => Ok(LinkVerdict::Wider { extra }),
    }
}

/// Each row has what the old name is allowed, what the new one is, and what of that goes beyond the old one's.
fn expect_beyond(rt: &impl Abort, rows: &[[&[u8]; 3]]) -> Result<(), Fail> {
    for row in rows {
        let is_so = verdict_of(row[0], row[1])? == beyond(row[2])?;
        assert!(rt; is_so, "{row:?}");
    }
    Ok(())
}

#[test]
fn links_by_what_their_names_allow(rt: HostRuntime) -> Result<(), Fail> {
    expect_beyond(
        &rt,
        &[
            [b"", b"l", b""],
            [b"r", b"rl", b""],
            [b"rwkm", b"rl", b""],
            [b"r", b"rwl", b"w"],
            [b"l", b"rwlkm", b"rwkm"],
            [b"m", b"lk", b"k"],
            // Append is a permission of its own, whatever a rule with write holds.
            [b"a", b"lwa", b"w"],
            [b"wa", b"la", b""],
            [b"r", b"rla", b"a"],
        ],
    )
}

#[test]
fn links_to_names_that_refuse_them(rt: HostRuntime) -> Result<(), Fail> {
    let denied = Verdict::Denied { rule: 3 };
    let verdict = judge_link(perms(b"rw")?, Perms::NONE, denied);
    assert_eq!(rt; verdict, LinkVerdict::Refused(denied));
    let missing = Verdict::NoRule {
        missing: perms(b"l")?,
    };
    // The refusal takes precedence over what the new name is allowed beyond the old one.
    let verdict = judge_link(Perms::NONE, perms(b"rw")?, missing);
    assert_eq!(rt; verdict, LinkVerdict::Refused(missing));
    Ok(())
}

#[test]
fn link_verdicts_as_they_are_printed(rt: HostRuntime) -> Result<(), Fail> {
    let alloc = rt.alloc();
    let missing = LinkVerdict::Refused(Verdict::NoRule {
        missing: perms(b"l")?,
    });
    let wider = LinkVerdict::Wider {
        extra: perms(b"kw")?,
    };
    assert!(rt;
        is_printed(alloc, &missing, "no rule for l")?
            && is_printed(alloc, &wider, "wider by wk")?
            && is_printed(alloc, &LinkVerdict::Fine, "allowed")?
    );
    Ok(())
}
