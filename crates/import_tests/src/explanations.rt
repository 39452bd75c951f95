//! What imported rules say about a name, and where they come from.
use crate::texts::{CUPS, Ending, OF_CUPS};
use std::alloc::Global;
use trace_import::explain_flattened;
use trace_report::{Format, Status};

fn explained(alloc: Global, format: Format, perms: &str, name: &str) -> Ending {
    let (mut answers, mut faults) = (Vec::new(alloc), Vec::new(alloc));
    let status = explain_flattened(
        alloc,
        format,
        OF_CUPS,
        perms,
        name,
        &mut CUPS.as_bytes(),
        &mut answers,
        &mut faults,
    );
    Ending {
        status,
        answers,
        faults,
    }
}

#[test]
fn explanations_with_origins(rt: HostRuntime) {
    let ending = explained(rt.alloc(), Format::Text, "rk", "/srv/x");
    let told = "no rule for k
r: allowed by rule 2, line 7, in or after <abstractions/base>: \"/{home,srv}/x\" rw,
k: no rule
";
    assert!(rt; ending.is(Status::Done, told, ""));
    let ending = explained(rt.alloc(), Format::Json, "r", "/etc/passwd");
    let told =
        "{\"missing\":null,\"reasons\":[{\"permission\":\"r\",\"rule\":{\"file\":\"<tunables/home>\",\"line\":5,\"number\":1,\
        \"text\":\"\\\"/etc/passwd\\\" r,\"},\"verdict\":\"allowed\"}],\"rule\":null,\"verdict\":\"allowed\"}\n";
    assert!(rt; ending.is(Status::Done, told, ""));
}

#[test]
fn questions_that_are_bad(rt: HostRuntime) {
    let ending = explained(rt.alloc(), Format::Text, "x", "/a");
    assert!(rt; ending.is(Status::BadArguments, "", "bad permissions\n"));
    let ending = explained(rt.alloc(), Format::Text, "r", "a");
    assert!(rt; ending.is(Status::BadArguments, "", "bad name\n"));
}
