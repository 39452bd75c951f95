//! The words of permissions of a rule: append and write conflict, and `all` at a rule's start is a rule of its own.
use crate::print::is_printed;
use names::{Perms, RuleKind};
use rule_reader::{Profile, ReadFault, read};
use rule_text::write_rule;
use std::alloc::Global;
use std::process::Abort;
use std::test::Fail;

/// Reads a profile whose only line is this rule. It begins at byte 14.
fn read_rule(alloc: Global, rule: &str) -> Result<Result<Profile, ReadFault>, Fail> {
    let text = format!(in alloc; "profile p {{\n  {rule}\n}}\n")?;
    Ok(read(alloc, text.as_bytes()))
}

fn expect_faults(rt: &impl Abort, alloc: Global, rows: &[(&str, ReadFault)]) -> Result<(), Fail> {
    for (rule, fault) in rows {
        assert_eq!(rt; read_rule(alloc, rule)?.err(), Some(*fault), "{rule}");
    }
    Ok(())
}

#[test]
fn append_and_write_conflict(rt: HostRuntime) -> Result<(), Fail> {
    expect_faults(
        &rt,
        rt.alloc(),
        &[
            ("/log wa,", ReadFault::Conflict { offset: 19 }),
            ("/log arw,", ReadFault::Conflict { offset: 19 }),
            ("/log rwlkma,", ReadFault::Conflict { offset: 19 }),
            ("deny /log aw,", ReadFault::Conflict { offset: 24 }),
            ("wa /log,", ReadFault::Conflict { offset: 14 }),
            ("deny wa /log,", ReadFault::Conflict { offset: 19 }),
            // The word comes before the gap that is missing, and before what is wrong with the path.
            ("wa\"/log\",", ReadFault::Conflict { offset: 14 }),
            ("wa log,", ReadFault::Conflict { offset: 14 }),
            // A word of which a letter isn't supported is left out as a whole.
            ("/log wax,", ReadFault::LeftOut { offset: 19, len: 3 }),
            ("wax /log,", ReadFault::LeftOut { offset: 14, len: 3 }),
        ],
    )
}

#[test]
fn a_conflict_is_printed(rt: HostRuntime) -> Result<(), Fail> {
    let fault = ReadFault::Conflict { offset: 19 };
    assert!(rt; fault.number() == 12 && fault.offset() == Some(19));
    assert!(rt; is_printed(rt.alloc(), &fault, "append and write conflict at byte 19")?);
    Ok(())
}

#[test]
fn all_is_a_rule_of_its_own(rt: HostRuntime) -> Result<(), Fail> {
    expect_faults(
        &rt,
        rt.alloc(),
        &[
            ("all /x,", ReadFault::LeftOut { offset: 14, len: 3 }),
            ("all,", ReadFault::LeftOut { offset: 14, len: 3 }),
            ("all\"/x\",", ReadFault::LeftOut { offset: 14, len: 3 }),
            // After a qualifier it is permissions, which a path follows.
            ("deny all,", ReadFault::Syntax { offset: 22 }),
            ("allow all,", ReadFault::Syntax { offset: 23 }),
        ],
    )
}

/// Each row has a rule and its canonical text, which has the order r w l k m a.
fn expect_written(rt: &impl Abort, alloc: Global, rows: &[(&str, &str)]) -> Result<(), Fail> {
    for (rule, text) in rows {
        let profile = read_rule(alloc, rule)?.ok().ok_or("a rule")?;
        assert_eq!(rt; profile.rules().len(), 1);
        for read in profile.rules() {
            assert!(rt;
                write_rule(alloc, read)?.as_slice() == text.as_bytes(),
                "{rule}"
            );
        }
    }
    Ok(())
}

#[test]
fn rules_with_append(rt: HostRuntime) -> Result<(), Fail> {
    expect_written(
        &rt,
        rt.alloc(),
        &[
            ("/x a,", "\"/x\" a,"),
            ("a /x,", "\"/x\" a,"),
            ("deny /x aa,", "deny \"/x\" a,"),
            ("/x amklr,", "\"/x\" rlkma,"),
            ("/x mklwr,", "\"/x\" rwlkm,"),
            ("/x all,", "\"/x\" la,"),
            ("al /x,", "\"/x\" la,"),
            ("lal /x,", "\"/x\" la,"),
            ("deny all /x,", "deny \"/x\" la,"),
            ("allow all /x,", "\"/x\" la,"),
        ],
    )
}

#[test]
fn append_is_in_the_profile(rt: HostRuntime) -> Result<(), Fail> {
    let profile = read_rule(rt.alloc(), "deny all /x,")?.ok().ok_or("a rule")?;
    let perms = Perms::from_letters(b"la").ok_or("letters")?;
    for rule in profile.rules() {
        assert!(rt; rule.kind() == RuleKind::Deny && rule.perms() == perms);
    }
    Ok(())
}

/// The fault of a text of 1,024 rules and one more, which begins at byte 6,155.
fn fault_of_last(alloc: Global, rule: &str) -> Result<Option<ReadFault>, Fail> {
    let mut text = Vec::from_slice(alloc, b"profile p {")?;
    for _ in 0..1024 {
        text.extend_from_slice(b"/x r,\n")?;
    }
    text.extend_from_slice(rule.as_bytes())?;
    text.push(b'}')?;
    Ok(read(alloc, &text).err())
}

#[test]
fn one_rule_too_many(rt: HostRuntime) -> Result<(), Fail> {
    let offset = 6155;
    for rule in [
        "wa /x,",
        "wa",
        "a /x,",
        "/x wa,",
        "deny all /x,",
        "allow",
        "lal",
    ] {
        let fault = fault_of_last(rt.alloc(), rule)?;
        assert_eq!(&rt; fault, Some(ReadFault::TooManyRules { offset }), "{rule}");
    }
    for rule in ["all /x,", "all,", "all"] {
        let fault = fault_of_last(rt.alloc(), rule)?;
        assert_eq!(&rt;
            fault,
            Some(ReadFault::LeftOut { offset, len: 3 }),
            "{rule}"
        );
    }
    Ok(())
}
