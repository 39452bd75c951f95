//! Imports over streams that fail, and one with a long account.
use crate::runs::{Failing, PASSWD, Pieces, run, run_into_failing, run_on_pieces, run_within};
use std::alloc::{AllocError, Global};
use std::io::ErrorKind;
use std::test::Fail;
use trace_report::Status;

const CANONICAL: &str = "profile \"passwd\" {\n  \"/etc/passwd\" r,\n}\n";

/// A variable, a rule for owners, and a hat.
const HOMES: &str = "profile p {\n  owner @{H}.x rw,\n}\nprofile q {\n  /a r,\n}\n";

#[test]
fn imports_that_are_cut_off(rt: HostRuntime) {
    let ending = run_into_failing(&rt, rt.alloc(), &["aa-trace", "import"], 5, 3);
    assert!(rt;
        ending.is(
            Status::OutputFailed,
            &CANONICAL.as_bytes()[..15],
            b"refused: output\n"
        )
    );
}

/// The profile is written where only its account couldn't be, or not all of it.
#[test]
fn accounts_that_are_cut_off(rt: HostRuntime) {
    let alloc = rt.alloc();
    for (calls, written) in &[(0, ""), (1, "2:3: ")] {
        let mut input = HOMES.as_bytes();
        let faults = Failing::after(alloc, 5, *calls);
        let words = ["aa-trace", "import", "--profile=p", "--define=H=/h/"];
        let ending = run_within(
            &rt,
            alloc,
            &words,
            &mut input,
            Failing::never(alloc),
            faults,
        );
        let answers = "profile \"p\" {\n  \"/h/.x\" rw,\n}\n";
        assert!(rt; ending.is(Status::FaultsFailed, answers.as_bytes(), written.as_bytes()));
    }
}

#[test]
fn imports_that_are_not_read(rt: HostRuntime) -> Result<(), Fail> {
    let pieces = Pieces {
        left: PASSWD.as_bytes(),
        piece: 8,
        reads: 2,
        error: ErrorKind::BrokenPipe,
    };
    let ending = run_on_pieces(&rt, rt.alloc(), &["aa-trace", "import"], pieces)?;
    assert!(rt; ending.is(Status::InputFailed, b"", b"refused: input\n"));
    Ok(())
}

/// Adds a text, repeated.
fn push_times(text: &mut String, count: usize, more: &str) -> Result<(), AllocError> {
    for _ in 0..count {
        text.push_str(more)?;
    }
    Ok(())
}

/// A variable that is led to 16 long paths, and below it a profile that repeats this line.
fn many_paths(alloc: Global, count: usize, line: &str) -> Result<String, AllocError> {
    let mut text = String::new(alloc);
    text.push_str("@{A} = \"{")?;
    push_times(&mut text, 15, ",")?;
    text.push_str("}/")?;
    push_times(&mut text, 500, "x")?;
    text.push_str("\"\nprofile p {\n")?;
    push_times(&mut text, count, line)?;
    text.push_str("}\n")?;
    Ok(text)
}

/// The paths of rules that go anyway don't count, and each of these rules is reported: more lines than anybody reads.
#[test]
fn rules_that_go_anyway(rt: HostRuntime) -> Result<(), Fail> {
    let alloc = rt.alloc();
    let text = many_paths(alloc, 1100, "owner @{A} r,\n")?;
    let mut told = String::new(alloc);
    for number in 3..1103 {
        write!(
            told,
            "{number}:1: owner: narrower for owners: owner @{{A}} r,\n"
        )?;
    }
    told.push_str("rules 0; reported: 0 exact, 0 wider, 0 narrower, 0 wider for owners, ")?;
    told.push_str("1100 narrower for owners\n")?;
    let words = ["aa-trace", "import", "--owner", "drop"];
    let ending = run(&rt, alloc, &words, text.as_bytes());
    assert!(rt; ending.is(Status::Done, b"profile \"p\" {\n}\n", told.as_bytes()));
    Ok(())
}
