//! Commands that answer in JSON, over streams in memory.
use crate::answers::joined;
use crate::commands::{Ending, expect};
use script_bench::PlainBench;
use std::alloc::Global;
use std::test::Fail;
use trace_commands::{compile, explain, judge, match_name};
use trace_report::{Format, Status};
use trace_test::{TestOptions, run_test};

const WEB: &[u8] = b"profile web {\n  /** r,\n  deny /a w,\n}\n";

fn judge_in_memory(alloc: Global, format: Format, perms: &str) -> Ending {
    let mut input = WEB;
    let mut answers = Vec::new(alloc);
    let mut faults = Vec::new(alloc);
    let status = judge(
        alloc,
        format,
        perms,
        "/a",
        &mut input,
        &mut answers,
        &mut faults,
    );
    Ending {
        status,
        answers,
        faults,
    }
}

#[test]
fn judged(rt: HostRuntime) {
    let rows: [(Format, &str, &[u8]); 4] = [
        (Format::Text, "rw", b"denied by rule 2\n"),
        (
            Format::Json,
            "rw",
            b"{\"missing\":null,\"rule\":2,\"verdict\":\"denied\"}\n",
        ),
        (
            Format::Json,
            "rmk",
            b"{\"missing\":\"km\",\"rule\":null,\"verdict\":\"no rule\"}\n",
        ),
        (
            Format::Json,
            "r",
            b"{\"missing\":null,\"rule\":null,\"verdict\":\"allowed\"}\n",
        ),
    ];
    for (format, perms, text) in rows {
        let ending = judge_in_memory(rt.alloc(), format, perms);
        expect(&rt, &ending, Status::Done, text);
    }
}

fn explain_in_memory(alloc: Global, format: Format) -> Ending {
    let mut input = WEB;
    let mut answers = Vec::new(alloc);
    let mut faults = Vec::new(alloc);
    let status = explain(
        alloc,
        format,
        "k",
        "/a",
        &mut input,
        &mut answers,
        &mut faults,
    );
    Ending {
        status,
        answers,
        faults,
    }
}

#[test]
fn explained(rt: HostRuntime) {
    let rows: [(Format, &[u8]); 2] = [
        (Format::Text, b"no rule for k\nk: no rule\n"),
        (
            Format::Json,
            b"{\"missing\":\"k\",\"reasons\":[{\"permission\":\"k\",\"rule\":null,\"verdict\":\"no rule\"}],\
              \"rule\":null,\"verdict\":\"no rule\"}\n",
        ),
    ];
    for (format, text) in rows {
        let ending = explain_in_memory(rt.alloc(), format);
        expect(&rt, &ending, Status::Done, text);
    }
}

// The image of the profile, in which states may have this depth, and the verdict by it.
fn match_in_memory(alloc: Global, format: Format, depth: u16) -> Ending {
    let mut input = WEB;
    let mut image = Vec::new(alloc);
    let mut faults = Vec::new(alloc);
    let status = compile(alloc, depth, &mut input, &mut image, &mut faults);
    let mut answers = Vec::new(alloc);
    if status == Status::Done {
        let mut input = image.as_slice();
        match_name(
            alloc,
            format,
            "w",
            "/srv/a",
            &mut input,
            &mut answers,
            &mut faults,
        );
    }
    Ending {
        status,
        answers,
        faults,
    }
}

#[test]
fn matched(rt: HostRuntime) {
    let rows: [(Format, u16, &[u8]); 3] = [
        (Format::Text, 0, b"no rule for w\nsteps 6\n"),
        (
            Format::Json,
            0,
            b"{\"lookups\":null,\"missing\":\"w\",\"rule\":null,\"steps\":6,\"verdict\":\"no rule\"}\n",
        ),
        (
            Format::Json,
            3,
            b"{\"lookups\":6,\"missing\":\"w\",\"rule\":null,\"steps\":6,\"verdict\":\"no rule\"}\n",
        ),
    ];
    for (format, depth, text) in rows {
        let ending = match_in_memory(rt.alloc(), format, depth);
        expect(&rt, &ending, Status::Done, text);
    }
}

const SCRIPT: &[u8] = b"expect ok\nmkdir /a\nexpect ok 1\nexpect no\t\xff\n";

fn test_in_memory(alloc: Global, options: TestOptions) -> Option<Ending> {
    let mut bench = PlainBench::new(alloc, 9).ok()?;
    let mut input = SCRIPT;
    let mut answers = Vec::new(alloc);
    let mut faults = Vec::new(alloc);
    let status = run_test(
        alloc,
        options,
        &mut bench,
        &mut input,
        &mut answers,
        &mut faults,
    );
    Some(Ending {
        status,
        answers,
        faults,
    })
}

#[test]
fn tested(rt: HostRuntime) -> Result<(), Fail> {
    let rows: [(Format, [&[u8]; 3]); 2] = [
        (
            Format::Text,
            [
                b"1: expected ok, got nothing\n",
                b"4: expected no?\xff, got ok 1\n",
                b"1 of 3 expectations hold\n",
            ],
        ),
        (
            Format::Json,
            [
                b"{\"expected\":\"ok\",\"got\":null,\"line\":1}\n",
                b"{\"expected\":[110,111,9,255],\"got\":\"ok 1\",\"line\":4}\n",
                b"{\"expectations\":3,\"held\":1}\n",
            ],
        ),
    ];
    for (format, lines) in rows {
        let options = TestOptions {
            format,
            answers: false,
        };
        let ending = test_in_memory(rt.alloc(), options).ok_or("bench")?;
        expect(&rt, &ending, Status::Unmet, &joined(rt.alloc(), &lines)?);
    }
    Ok(())
}
