//! Scripts with expectations over streams that fail.
use crate::runs::{Ending, Failing, Pieces, run_on_pieces, run_within};
use std::alloc::Global;
use std::io::ErrorKind;
use std::sync::Wait;
use std::test::Fail;
use std::thread::Threads;
use trace_report::Status;

/// One that fails, and one that holds of the same answer.
const FAILS: &str = "mkdir /d\nexpect EEXIST 17\nexpect ok 1\n";

/// A test whose answers are taken seven bytes at a time and in at most N calls.
fn test_into_failing(rt: &(impl Threads + Wait + Sync), alloc: Global, calls: usize) -> Ending {
    let mut input = FAILS.as_bytes();
    let answers = Failing::after(alloc, 7, calls);
    let faults = Failing::never(alloc);
    run_within(
        rt,
        alloc,
        &["aa-trace", "test"],
        &mut input,
        answers,
        faults,
    )
}

#[test]
fn writers_that_fail_a_test(rt: HostRuntime) {
    let whole = b"2: expected EEXIST 17, got ok 1\n1 of 2 expectations hold\n";
    // The first line is written in five parts and flushed, the second one in four.
    for calls in 0..11 {
        let ending = test_into_failing(&rt, rt.alloc(), calls);
        let written = ending.answers.len();
        let told = b"refused: output\n";
        assert!(rt;
            written <= whole.len() && ending.is(Status::OutputFailed, &whole[..written], told),
            "{calls}"
        );
    }
    let ending = test_into_failing(&rt, rt.alloc(), 11);
    assert!(rt; ending.is(Status::Unmet, whole, b""));
}

#[test]
fn readers_that_fail_a_test(rt: HostRuntime) -> Result<(), Fail> {
    // Twelve reads of three bytes go past the failing expectation, and not to the end.
    for (error, status, told) in [
        (
            ErrorKind::BrokenPipe,
            Status::InputFailed,
            "refused: input\n",
        ),
        (ErrorKind::OutOfMemory, Status::NoMemory, "no memory\n"),
    ] {
        let pieces = Pieces {
            left: FAILS.as_bytes(),
            piece: 3,
            reads: 12,
            error,
        };
        let ending = run_on_pieces(&rt, rt.alloc(), &["aa-trace", "test"], pieces)?;
        let failed = b"2: expected EEXIST 17, got ok 1\n";
        assert!(rt; ending.is(status, failed, told.as_bytes()), "{told}");
    }
    Ok(())
}
