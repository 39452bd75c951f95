//! Verdicts of records that no profile has, and faults of compiling.
use crate::print::is_printed;
use glob_automaton::{CompileFault, LeastHits, Record, told};
use names::{Permission, Perms};
use rule_text::Verdict;
use std::process::Abort;
use std::test::Fail;

#[test]
fn faults(rt: HostRuntime) -> Result<(), Fail> {
    let alloc = rt.alloc();
    let many = CompileFault::TooManyStates;
    let memory = CompileFault::NoMemory;
    assert!(rt; many.number() == 1 && is_printed(alloc, &many, "too many states")?);
    assert!(rt; memory.number() == 2 && is_printed(alloc, &memory, "no memory")?);
    Ok(())
}

fn hits(allow: u16, deny: u16) -> LeastHits {
    LeastHits { allow, deny }
}

fn expect_told(rt: &impl Abort, record: &Record, rows: &[(&[u8], Verdict)]) -> Result<(), Fail> {
    for (letters, want) in rows {
        let ask = Perms::from_letters(letters).ok_or("letters")?;
        assert_eq!(rt; told(record, ask), *want, "{letters:?}");
    }
    Ok(())
}

#[test]
fn verdicts_where_no_rule_hits(rt: HostRuntime) -> Result<(), Fail> {
    let both = Perms::from_letters(b"rw").ok_or("letters")?;
    expect_told(
        &rt,
        &Record::none(),
        &[
            (b"", Verdict::Allowed),
            (b"rw", Verdict::NoRule { missing: both }),
        ],
    )
}

// Reading is allowed by rule 2, writing by rule 1 and denied by rule 7.
#[test]
fn verdicts(rt: HostRuntime) -> Result<(), Fail> {
    let record = Record::none()
        .with_hits(Permission::Read, hits(2, 0))
        .with_hits(Permission::Write, hits(1, 7));
    let link = Perms::NONE.with(Permission::Link);
    expect_told(
        &rt,
        &record,
        &[
            (b"r", Verdict::Allowed),
            (b"rw", Verdict::Denied { rule: 7 }),
            (b"rl", Verdict::NoRule { missing: link }),
            (b"rlw", Verdict::Denied { rule: 7 }),
        ],
    )
}

// The least rule that denies, whichever permission it holds.
#[test]
fn verdicts_of_rules_that_deny(rt: HostRuntime) -> Result<(), Fail> {
    let denied = Record::none()
        .with_hits(Permission::Read, hits(0, 9))
        .with_hits(Permission::Write, hits(0, 3))
        .with_hits(Permission::Map, hits(0, 5));
    expect_told(
        &rt,
        &denied,
        &[
            (b"r", Verdict::Denied { rule: 9 }),
            (b"w", Verdict::Denied { rule: 3 }),
            (b"rwm", Verdict::Denied { rule: 3 }),
            (b"rm", Verdict::Denied { rule: 5 }),
        ],
    )
}
