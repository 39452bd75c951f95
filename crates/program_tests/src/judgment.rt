//! `judge` and `explain` over streams that fail, and what every command ends with.
use crate::runs::{
    Failing, PASSWD, expect_read_faults, expect_unread, run, run_into_failing, run_within,
};
use std::alloc::Global;
use std::io::ErrorKind;
use std::process::Abort;
use std::sync::Wait;
use std::test::Fail;
use std::thread::Threads;
use trace_arguments::{LineFault, command_line};
use trace_commands::{can_be_judged, judge_quietly};
use trace_report::Status;

#[test]
fn readers_that_fail(rt: HostRuntime) -> Result<(), Fail> {
    let broken = ErrorKind::BrokenPipe;
    expect_read_faults(
        &rt,
        rt.alloc(),
        &["aa-trace", "judge", "r", "/etc/passwd"],
        &[
            (1, 100, broken, Status::Done, "allowed\n"),
            (1, 7, broken, Status::InputFailed, "refused: input\n"),
            (9, 0, broken, Status::InputFailed, "refused: input\n"),
            (
                1,
                7,
                ErrorKind::OutOfMemory,
                Status::NoMemory,
                "no memory\n",
            ),
        ],
    )
}

#[test]
fn answers_that_fail(rt: HostRuntime) {
    let words = ["aa-trace", "judge", "r", "/etc/passwd"];
    // Eight bytes are written in three parts and flushed, so a fifth call isn't made.
    for calls in 0..4 {
        let ending = run_into_failing(&rt, rt.alloc(), &words, 3, calls);
        let written = 8.min(3 * calls);
        assert!(rt;
            ending.is(
                Status::OutputFailed,
                &b"allowed\n"[..written],
                b"refused: output\n"
            ),
            "{calls}"
        );
    }
    let ending = run_into_failing(&rt, rt.alloc(), &words, 3, 4);
    assert!(rt; ending.tells(Status::Done, "allowed\n"));
}

/// A failed read, and a refused one, in `explain`: nothing is explained.
#[test]
fn explanations_whose_text_cannot_be_read(rt: HostRuntime) -> Result<(), Fail> {
    let broken = ErrorKind::BrokenPipe;
    let refused = ErrorKind::OutOfMemory;
    let whole = "allowed\nr: allowed by rule 1, line 2: \"/etc/passwd\" r,\n";
    expect_read_faults(
        &rt,
        rt.alloc(),
        &["aa-trace", "explain", "r", "/etc/passwd"],
        &[
            (1, 100, broken, Status::Done, whole),
            (1, 7, broken, Status::InputFailed, "refused: input\n"),
            (9, 0, broken, Status::InputFailed, "refused: input\n"),
            (1, 7, refused, Status::NoMemory, "no memory\n"),
        ],
    )
}

#[test]
fn explanations_that_are_cut_off(rt: HostRuntime) {
    let words = ["aa-trace", "explain", "r", "/etc/passwd"];
    let whole = b"allowed\nr: allowed by rule 1, line 2: \"/etc/passwd\" r,\n";
    let ending = run_into_failing(&rt, rt.alloc(), &words, 5, 3);
    assert!(rt; ending.is(Status::OutputFailed, &whole[..15], b"refused: output\n"));
}

/// A quiet verdict is a status, and nothing is written.
#[test]
fn quiet_verdicts(rt: HostRuntime) {
    let alloc = rt.alloc();
    for (name, status) in [
        ("/etc/passwd", Status::Done),
        ("/etc/shadow", Status::Unmet),
    ] {
        let mut input = PASSWD.as_bytes();
        let mut faults = Vec::new(alloc);
        assert!(rt; can_be_judged("r", name));
        assert_eq!(rt;
            judge_quietly(alloc, "r", name, &mut input, &mut faults),
            status
        );
        assert!(rt; faults.is_empty());
    }
    assert!(rt; !can_be_judged("r", "etc"));
}

/// Asserts how a run ends whose fault is taken in each number of calls: it isn't reported until it is flushed.
fn expect_told_late(rt: &(impl Abort + Threads + Wait + Sync), alloc: Global, words: &[&str]) {
    expect_unread(rt, alloc, words, 0, Status::FaultsFailed);
    expect_unread(rt, alloc, words, 1, Status::FaultsFailed);
    expect_unread(rt, alloc, words, 2, Status::FaultsFailed);
    expect_unread(rt, alloc, words, 3, Status::BadArguments);
}

/// The status of a run neither of whose streams accepts anything.
fn status_of_silent_run(rt: &(impl Threads + Wait + Sync), alloc: Global) -> Status {
    let words = ["aa-trace", "judge", "r", "/etc/passwd"];
    let mut input = PASSWD.as_bytes();
    let answers = Failing::after(alloc, 5000, 0);
    let faults = Failing::after(alloc, 5000, 0);
    run_within(rt, alloc, &words, &mut input, answers, faults).status
}

#[test]
fn messages_that_fail(rt: HostRuntime) {
    expect_told_late(&rt, rt.alloc(), &["aa-trace", "judge", "r", "x"]);
    expect_told_late(&rt, rt.alloc(), &["aa-trace", "judge", "r", "--no"]);
    expect_told_late(&rt, rt.alloc(), &["aa-trace", "explain", "r", "x"]);
    assert_eq!(rt; status_of_silent_run(&rt, rt.alloc()), Status::FaultsFailed);
}

/// Words of which there are none aren't a command line, and nothing is read.
#[test]
fn no_words(rt: HostRuntime) -> Result<(), Fail> {
    let words: [&str; 0] = [];
    let usage = match command_line(rt.alloc(), &words) {
        Err(LineFault::Usage(error)) => error.to_string(rt.alloc())?,
        _ => return Err(Fail::new("no usage fault")),
    };
    let ending = run(&rt, rt.alloc(), &words, PASSWD.as_bytes());
    assert!(rt;
        usage.as_str().ends_with('\n')
            && ending.status == Status::BadArguments
            && ending.answers.is_empty()
            && ending.faults.as_slice().ends_with(b"\n")
    );
    Ok(())
}

#[test]
fn statuses_of_the_process(rt: HostRuntime) {
    for (status, code) in &[
        (Status::Done, 0),
        (Status::Unmet, 1),
        (Status::BadArguments, 2),
        (Status::Refused, 3),
        (Status::InputFailed, 3),
        (Status::OutputFailed, 3),
        (Status::FaultsFailed, 3),
        (Status::NoMemory, 4),
    ] {
        assert_eq!(rt; status.code(), *code);
    }
}
