//! Profiles that are compared, of which words name the files.
use crate::runs::run;
use std::alloc::Global;
use std::process::Abort;
use std::sync::Wait;
use std::thread::Threads;
use trace_report::Status;

const WEB: &str = "profile web {\n  /srv/** r,\n  /srv/log/* rw,\n  deny /srv/*/secret r,\n}\n";

// The words after the program's name, the status, and what is written: an answer, or, with another status than 0 or 1, a fault.
#[derive(Clone, Copy)]
struct Row<'a> {
    words: &'a [&'a str],
    status: Status,
    text: &'a str,
}

// Two profiles. The file `old` allows to read what is directly in /etc, and to read and write below /srv; `cut` is refused.
const DIFFERENCES: [Row<'static>; 6] = [
    Row {
        words: &["aa-trace", "diff", "old", "old"],
        status: Status::Done,
        text: "same\n",
    },
    Row {
        words: &["aa-trace", "diff", "--below", "/srv/log/*", "old"],
        status: Status::Unmet,
        text: concat!(
            "- r /srv/log/secret: denied by rule 3, line 4: deny \"/srv/*/secret\" r,; ",
            "was: allowed by rule 2, line 3: \"/srv/**\" rw,\n"
        ),
    },
    Row {
        words: &["aa-trace", "diff", "missing"],
        status: Status::InputFailed,
        text: "refused: input\n",
    },
    Row {
        words: &["aa-trace", "diff", "missing", "--below", "etc"],
        status: Status::BadArguments,
        text: "bad pattern\n",
    },
    Row {
        words: &["aa-trace", "diff", "cut", "old"],
        status: Status::Refused,
        text: "refused: read 1 at 12 in OLD\n",
    },
    Row {
        words: &["aa-trace", "diff", "old", "cut"],
        status: Status::Refused,
        text: "refused: read 1 at 12 in NEW\n",
    },
];

fn expect_rows(rt: &(impl Abort + Threads + Wait + Sync), alloc: Global, rows: &[Row<'_>]) {
    for row in rows {
        let ending = run(rt, alloc, row.words, WEB.as_bytes());
        let is_answer = matches!(row.status, Status::Done | Status::Unmet);
        let (answers, faults) = if is_answer {
            (row.text.as_bytes(), b"".as_slice())
        } else {
            (b"".as_slice(), row.text.as_bytes())
        };
        assert!(rt; ending.is(row.status, answers, faults), "{:?}", row.words);
    }
}

#[test]
fn profiles_are_compared(rt: HostRuntime) {
    expect_rows(&rt, rt.alloc(), &DIFFERENCES);
}
