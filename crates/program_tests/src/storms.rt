//! Storms whose line can't be written.
use crate::runs::{Failing, run_within};
use std::alloc::Global;
use std::process::Abort;
use std::sync::Wait;
use std::thread::Threads;
use trace_report::Status;

/// How a storm ends whose output accepts `calls` writes.
fn expect_cut(
    rt: &(impl Abort + Threads + Wait + Sync),
    alloc: Global,
    calls: usize,
    status: Status,
    answers: &[u8],
    faults: &[u8],
) {
    let words = ["aa-trace", "storm", "--opens=1", "--changes=1"];
    let mut input = b"".as_slice();
    let written = Failing::after(alloc, 8, calls);
    let ending = run_within(
        rt,
        alloc,
        &words,
        &mut input,
        written,
        Failing::never(alloc),
    );
    assert!(rt; ending.is(status, answers, faults), "{calls} calls");
}

#[test]
fn storms_that_cannot_be_told(rt: HostRuntime) {
    let cut = b"refused: output\n";
    expect_cut(&rt, rt.alloc(), 0, Status::OutputFailed, b"", cut);
    expect_cut(&rt, rt.alloc(), 1, Status::OutputFailed, b"answers ", cut);
    let whole = b"answers 4 unjustified 0\n";
    expect_cut(&rt, rt.alloc(), 9, Status::Done, whole, b"");
}
