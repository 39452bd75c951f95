//! Scripts of events over streams that fail.
use crate::runs::{Pieces, run_on_pieces};
use named_texts::GivenTexts;
use std::alloc::Global;
use std::io;
use std::io::{ErrorKind, Write};
use std::process::Abort;
use std::sync::Wait;
use std::test::Fail;
use std::thread::Threads;
use trace_program::run_words;
use trace_report::Status;

/// Takes one byte at a time, and fails once it has been written to often enough.
#[derive(Drop)]
struct Narrow {
    taken: Vec<u8>,
    writes: usize,
}

impl Write for Narrow {
    fn write(&mut self, buf: &[u8]) -> io::Result<usize> {
        if self.writes == 0 {
            return Err(io::Error::from(ErrorKind::BrokenPipe));
        }
        self.writes -= 1;
        let taken = buf.len().min(1);
        self.taken.extend_from_slice(&buf[..taken])?;
        Ok(taken)
    }

    fn flush(&mut self) -> io::Result<()> {
        Ok(())
    }
}

const WORDS: [&str; 4] = ["aa-trace", "steps", "--capacity", "8"];

const SCRIPT: &str = "mkdir /a\nkeep mkdir /b\nopen p / r\nclose\n";

const PRINTED: &str = "ok 1\nno profile policy 0\nok 2\n";

fn expect_beginning(rt: &impl Abort, answers: &[u8]) {
    assert!(rt; PRINTED.as_bytes().starts_with(answers));
}

#[test]
fn readers_that_fail(rt: HostRuntime) -> Result<(), Fail> {
    for reads in 0..SCRIPT.len() {
        let pieces = Pieces {
            left: SCRIPT.as_bytes(),
            piece: 1,
            reads,
            error: ErrorKind::BrokenPipe,
        };
        let ending = run_on_pieces(&rt, rt.alloc(), &WORDS, pieces)?;
        assert_eq!(rt; ending.status, Status::InputFailed);
        assert_eq!(rt; ending.faults.as_slice(), b"refused: input\n".as_slice());
        expect_beginning(&rt, &ending.answers);
    }
    Ok(())
}

/// The status of a run whose answers take a limited number of calls, and what was written of them.
fn status_of(
    rt: &(impl Threads + Wait + Sync),
    alloc: Global,
    writes: usize,
    answers: &mut Vec<u8>,
) -> Result<Status, Fail> {
    let mut input = SCRIPT.as_bytes();
    let mut narrow = Narrow {
        taken: Vec::new(alloc),
        writes,
    };
    let mut faults = Vec::new(alloc);
    let texts = GivenTexts { texts: &[] };
    let status = run_words(
        rt,
        alloc,
        &texts,
        &WORDS,
        &mut input,
        &mut narrow,
        &mut faults,
    );
    answers.extend_from_slice(&narrow.taken)?;
    let told = if status == Status::Done {
        b"".as_slice()
    } else {
        b"refused: output\n".as_slice()
    };
    if faults.as_slice() == told {
        Ok(status)
    } else {
        Err(Fail::new("another fault"))
    }
}

#[test]
fn writers_that_fail(rt: HostRuntime) -> Result<(), Fail> {
    for writes in 0..PRINTED.len() {
        let mut answers = Vec::new(rt.alloc());
        let status = status_of(&rt, rt.alloc(), writes, &mut answers)?;
        assert_eq!(rt; (status, answers.len()), (Status::OutputFailed, writes));
        expect_beginning(&rt, &answers);
    }
    let mut answers = Vec::new(rt.alloc());
    let status = status_of(&rt, rt.alloc(), PRINTED.len(), &mut answers)?;
    assert_eq!(rt; status, Status::Done);
    expect_beginning(&rt, &answers);
    Ok(())
}
