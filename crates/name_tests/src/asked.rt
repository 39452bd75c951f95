//! Lines of a test that ask what rules say about a name, and policies that are refused.
use crate::streams::{Ending, expect};
use script_bench::PlainBench;
use std::alloc::Global;
use std::test::Fail;
use trace_report::{Format, Status};
use trace_test::{TestOptions, run_test};

/// A policy that is refused as expected, and one of which nothing is expected.
const SCRIPT: &[u8] = b"policy\nprofile q {\n  /f r,\n  deny \"/x y\" r,\n}\n.\n\
judge q \"/x\\x20y\" rw\nexpect denied ...\nexplain q /f rk\njudge p /f r\n\
policy\n.\nexpect policy refused: ...\npolicy\n.\n";

/// What is written, in text and in JSON.
const TEXT: &[u8] = b"policy q version 1\ndenied by rule 2\n\
no rule for k; r: allowed by rule 1: \"/f\" r,; k: no rule\nno profile\n\
policy refused: read 1 at 0\npolicy refused: read 1 at 0\n14: policy refused: read 1 at 0\n\
2 of 3 expectations hold\n";

const JSON: &[u8] = b"{\"answer\":\"policy q version 1\",\"line\":1}\n\
{\"answer\":\"denied by rule 2\",\"line\":7}\n\
{\"answer\":\"no rule for k; r: allowed by rule 1: \\\"/f\\\" r,; k: no rule\",\"line\":9}\n\
{\"answer\":\"no profile\",\"line\":10}\n\
{\"answer\":\"policy refused: read 1 at 0\",\"line\":11}\n\
{\"answer\":\"policy refused: read 1 at 0\",\"line\":14}\n\
{\"expected\":null,\"got\":\"policy refused: read 1 at 0\",\"line\":14}\n\
{\"expectations\":3,\"held\":2}\n";

/// The script as a test that shows its answers, on a tree in plain memory.
fn tested(alloc: Global, format: Format) -> Option<Ending> {
    let mut bench = PlainBench::new(alloc, 16).ok()?;
    let options = TestOptions {
        format,
        answers: true,
    };
    let mut input = SCRIPT;
    let mut answers = Vec::new(alloc);
    let mut faults = Vec::new(alloc);
    let status = run_test(
        alloc,
        options,
        &mut bench,
        &mut input,
        &mut answers,
        &mut faults,
    );
    Some(Ending {
        status,
        answers,
        faults,
    })
}

#[test]
fn questions_about_names(rt: HostRuntime) -> Result<(), Fail> {
    for (format, answers) in [(Format::Text, TEXT), (Format::Json, JSON)] {
        let ending = tested(rt.alloc(), format).ok_or("bench")?;
        expect(&rt, &ending, Status::Unmet, answers, b"");
    }
    Ok(())
}
