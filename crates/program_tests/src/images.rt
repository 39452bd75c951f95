//! Images over streams that fail.
use crate::runs::{
    Ending, Failing, PASSWD, Pieces, expect_read_faults, expect_unread, run, run_into_failing,
    run_on_pieces, run_within,
};
use std::alloc::Global;
use std::io;
use std::io::{ErrorKind, Read};
use std::process::Abort;
use std::sync::Wait;
use std::test::Fail;
use std::thread::Threads;
use trace_commands::{check, match_name, match_quietly};
use trace_report::{Format, Status};

/// What `check` says of the image of [`PASSWD`].
const CHECKED: &[u8] = b"ok states 13 cells 258 accepts 2\n";

/// The image of a profile's text.
fn image_of(rt: &(impl Abort + Threads + Wait + Sync), alloc: Global, text: &str) -> Vec<u8> {
    let ending = run(rt, alloc, &["aa-trace", "compile"], text.as_bytes());
    assert!(rt;
        ending.status == Status::Done && ending.faults.is_empty(),
        "{text}"
    );
    ending.answers
}

/// Bad arguments of `match` are reported before anything is read.
#[test]
fn arguments_of_match_go_first(rt: HostRuntime) {
    for (perms, name) in [("rx", "/x"), ("", "x"), ("r", "x")] {
        let words = ["aa-trace", "match", perms, name];
        expect_unread(&rt, rt.alloc(), &words, 3, Status::BadArguments);
    }
}

/// A failed read, and a refused one, in each command.
#[test]
fn images_that_cannot_be_read(rt: HostRuntime) -> Result<(), Fail> {
    let rows = [
        (
            3,
            2,
            ErrorKind::BrokenPipe,
            Status::InputFailed,
            "refused: input\n",
        ),
        (
            3,
            2,
            ErrorKind::OutOfMemory,
            Status::NoMemory,
            "no memory\n",
        ),
    ];
    expect_read_faults(&rt, rt.alloc(), &["aa-trace", "compile"], &rows)?;
    expect_read_faults(&rt, rt.alloc(), &["aa-trace", "check"], &rows)?;
    expect_read_faults(&rt, rt.alloc(), &["aa-trace", "match", "r", "/x"], &rows)
}

/// Asserts what was written of an image whose stream accepts `calls` writes.
fn expect_front(
    rt: &(impl Abort + Threads + Wait + Sync),
    alloc: Global,
    image: &[u8],
    calls: usize,
) {
    let ending = run_into_failing(rt, alloc, &["aa-trace", "compile"], 1_000, calls);
    assert!(rt;
        ending.status == Status::OutputFailed
            && ending.faults.as_slice() == b"refused: output\n".as_slice()
            && ending.answers.len() == 2_280.min(1_000 * calls.min(3))
            && image.starts_with(&ending.answers),
        "{calls}"
    );
}

/// An image that can't be written whole: a front part of it remains.
#[test]
fn images_that_cannot_be_written(rt: HostRuntime) {
    let image = image_of(&rt, rt.alloc(), PASSWD);
    for calls in 0..4 {
        expect_front(&rt, rt.alloc(), &image, calls);
    }
    let ending = run_into_failing(&rt, rt.alloc(), &["aa-trace", "compile"], 1_000, 4);
    assert!(rt; ending.is(Status::Done, &image, b""));
}

/// How many bytes of an answer are taken at a time.
const PIECE: usize = 3;

/// More calls than it takes to write an answer and to flush it.
const CALLS: usize = 20;

/// Asserts what a command that reads an image writes to a stream that accepts N calls: a front of its answer, until all of it is
/// written and flushed.
fn expect_answer_cut(
    rt: &(impl Abort + Threads + Wait + Sync),
    alloc: Global,
    words: &[&str],
    image: &[u8],
    answer: &[u8],
) {
    for calls in 0..CALLS {
        let mut input = image;
        let answers = Failing::after(alloc, PIECE, calls);
        let ending = run_within(rt, alloc, words, &mut input, answers, Failing::never(alloc));
        // The last call flushes.
        if calls > 0 && PIECE * (calls - 1) >= answer.len() {
            assert!(rt; ending.is(Status::Done, answer, b""), "{words:?} {calls}");
        } else {
            let front = &answer[..answer.len().min(PIECE * calls)];
            let fault = b"refused: output\n";
            assert!(rt;
                ending.is(Status::OutputFailed, front, fault),
                "{words:?} {calls}"
            );
        }
    }
}

/// A failed write in `check` and in `match`: what was written is a front of the answer.
#[test]
fn answers_on_images_that_cannot_be_written(rt: HostRuntime) {
    let image = image_of(&rt, rt.alloc(), PASSWD);
    expect_answer_cut(&rt, rt.alloc(), &["aa-trace", "check"], &image, CHECKED);
    let words = ["aa-trace", "match", "r", "/etc/passwd"];
    expect_answer_cut(&rt, rt.alloc(), &words, &image, b"allowed\nsteps 11\n");
}

/// A quiet verdict by an image is a status, and nothing is written.
#[test]
fn quiet_verdicts_by_images(rt: HostRuntime) {
    let alloc = rt.alloc();
    let image = image_of(&rt, alloc, PASSWD);
    for (name, status) in [
        ("/etc/passwd", Status::Done),
        ("/etc/shadow", Status::Unmet),
    ] {
        let mut input = image.as_slice();
        let mut faults = Vec::new(alloc);
        assert_eq!(rt;
            match_quietly(alloc, "r", name, &mut input, &mut faults),
            status
        );
        assert!(rt; faults.is_empty());
    }
}

/// Gives its bytes and then zeros, without end. Before each read that gives some, there is one that is interrupted.
#[derive(Drop)]
struct Endless<'a> {
    left: &'a [u8],
    taken: usize,
    interrupts: bool,
}

impl Read for Endless<'_> {
    fn read(&mut self, buf: &mut [u8]) -> io::Result<usize> {
        self.interrupts = !self.interrupts;
        if self.interrupts {
            return Err(io::Error::from(ErrorKind::Interrupted));
        }
        let n = self.left.len().min(buf.len());
        let (given, left) = self.left.split_at(n);
        buf.fill(0);
        buf[..n].copy_from_slice(given);
        self.left = left;
        self.taken = self.taken.saturating_add(buf.len());
        Ok(buf.len())
    }
}

/// How `check` ends on a stream without end, or `match`, and how many bytes it took.
fn end_on_endless(alloc: Global, matches: bool, front: &[u8]) -> (Ending, usize) {
    let mut input = Endless {
        left: front,
        taken: 0,
        interrupts: false,
    };
    let mut answers = Failing::never(alloc);
    let mut faults = Failing::never(alloc);
    let status = if matches {
        match_name(
            alloc,
            Format::Text,
            "r",
            "/x",
            &mut input,
            &mut answers,
            &mut faults,
        )
    } else {
        check(alloc, &mut input, &mut answers, &mut faults)
    };
    let ending = Ending {
        status,
        answers: answers.taken,
        faults: faults.taken,
    };
    (ending, input.taken)
}

/// Asserts how both end on a stream without end that begins with these bytes, and how many they take.
fn expect_settled(rt: &impl Abort, alloc: Global, front: &[u8], told: &str, bytes: usize) {
    for matches in [false, true] {
        let (ending, taken) = end_on_endless(alloc, matches, front);
        assert!(rt;
            ending.tells(Status::Refused, told) && taken == bytes,
            "{told} {taken}"
        );
    }
}

/// Headers of streams without end: those with a fault, and the smallest of each version that has none.
const ENDLESS: [(&[u8], &str, usize); 7] = [
    (b"", "refused: image 2\n", 20),
    (b"PTAC\x01\0\0\0", "refused: image 2\n", 20),
    (b"PTAB\x03\0\0\0", "refused: image 3\n", 20),
    (b"PTAB\x01\0\x01\0", "refused: image 4\n", 20),
    (
        b"PTAB\x01\0\0\0\x01\0\0\0\0\x01\0\0\x01\0\0\0",
        "refused: image 5\n",
        20,
    ),
    (
        b"PTAB\x01\0\0\0\x02\0\0\0\0\x01\0\0\x01\0\0\0",
        "refused: image 6\n",
        2_113,
    ),
    (
        b"PTAB\x02\0\x01\0\x02\0\0\0\0\x01\0\0\x01\0\0\0",
        "refused: image 6\n",
        2_125,
    ),
];

/// A stream without end is refused after its header, or one byte after the length that this gives.
#[test]
fn endless_streams(rt: HostRuntime) {
    for (front, told, bytes) in &ENDLESS {
        expect_settled(&rt, rt.alloc(), front, told, *bytes);
    }
    let image = image_of(&rt, rt.alloc(), PASSWD);
    expect_settled(&rt, rt.alloc(), &image, "refused: image 6\n", 2_281);
}

/// The bytes of a stream, how many are read at a time, how often before it fails, and how `check` and `match` end.
type Broken<'a> = (&'a [u8], usize, usize, Status, &'a str);

/// Asserts how both commands end on a stream that fails.
fn expect_broken(
    rt: &(impl Abort + Threads + Wait + Sync),
    alloc: Global,
    row: &Broken<'_>,
) -> Result<(), Fail> {
    let (left, piece, reads, status, told) = row;
    let commands: [&[&str]; 2] = [&["aa-trace", "check"], &["aa-trace", "match", "r", "/x"]];
    for words in &commands {
        let pieces = Pieces {
            left,
            piece: *piece,
            reads: *reads,
            error: ErrorKind::BrokenPipe,
        };
        let ending = run_on_pieces(rt, alloc, words, pieces)?;
        assert!(rt; ending.tells(*status, told), "{words:?} {reads}");
    }
    Ok(())
}

/// A stream that fails after a header that has a fault is refused by it; after another one, reading failed.
#[test]
fn streams_that_fail_after_the_header(rt: HostRuntime) -> Result<(), Fail> {
    let image = image_of(&rt, rt.alloc(), PASSWD);
    let bad = b"PTAB\x03\0\0\0\0\0\0\0\0\0\0\0\0\0\0\0".as_slice();
    let rows: [Broken<'_>; 5] = [
        (bad, 7, 2, Status::InputFailed, "refused: input\n"),
        (bad, 7, 3, Status::Refused, "refused: image 3\n"),
        (bad, 20, 1, Status::Refused, "refused: image 3\n"),
        (&image, 20, 1, Status::InputFailed, "refused: input\n"),
        (&image, 1_000, 3, Status::InputFailed, "refused: input\n"),
    ];
    for row in &rows {
        expect_broken(&rt, rt.alloc(), row)?;
    }
    Ok(())
}

/// Asserts what is said of the first N bytes of an image.
fn expect_cut(
    rt: &(impl Abort + Threads + Wait + Sync),
    alloc: Global,
    image: &[u8],
    bytes: usize,
) {
    let cut = image.get(..bytes).unwrap_or(image);
    let told = if bytes < 20 {
        "refused: image 1\n"
    } else {
        "refused: image 6\n"
    };
    let checked = run(rt, alloc, &["aa-trace", "check"], cut);
    let matched = run(rt, alloc, &["aa-trace", "match", "r", "/x"], cut);
    assert!(rt;
        checked.tells(Status::Refused, told) && matched.tells(Status::Refused, told),
        "{bytes}"
    );
}

/// Images that end in their header, or soon after it.
#[test]
fn images_that_are_cut(rt: HostRuntime) {
    let image = image_of(&rt, rt.alloc(), PASSWD);
    for bytes in 0..23 {
        expect_cut(&rt, rt.alloc(), &image, bytes);
    }
    expect_cut(&rt, rt.alloc(), &image, 2_279);
}
