//! Runs over streams in memory, and over streams that fail.
use named_texts::{GivenText, GivenTexts};
use std::alloc::Global;
use std::io;
use std::io::{BufRead, BufReader, ErrorKind, Read, Write};
use std::process::Abort;
use std::sync::Wait;
use std::test::Fail;
use std::thread::Threads;
use trace_program::run_words;
use trace_report::Status;

pub(crate) const PASSWD: &str = "profile passwd {\n  /etc/passwd r,\n}\n";

/// The files that words may name.
pub(crate) const TEXTS: [GivenText<'static>; 2] = [
    GivenText {
        name: "old",
        text: b"profile p {\n  /etc/* r,\n  /srv/** rw,\n}\n",
    },
    GivenText {
        name: "cut",
        text: b"profile p {\n",
    },
];

/// Gives its bytes a few at a time, and fails once it has been read from often enough.
#[derive(Drop)]
pub(crate) struct Pieces<'a> {
    pub(crate) left: &'a [u8],
    pub(crate) piece: usize,
    pub(crate) reads: usize,
    pub(crate) error: ErrorKind,
}

impl Read for Pieces<'_> {
    fn read(&mut self, buf: &mut [u8]) -> io::Result<usize> {
        if self.reads == 0 {
            return Err(io::Error::from(self.error));
        }
        self.reads -= 1;
        let n = self.piece.min(buf.len()).min(self.left.len());
        let (given, left) = self.left.split_at(n);
        buf[..n].copy_from_slice(given);
        self.left = left;
        Ok(n)
    }
}

/// Takes what is written, a few bytes at a time, and fails once it has been written to or flushed often enough.
#[derive(Drop)]
pub(crate) struct Failing {
    pub(crate) taken: Vec<u8>,
    pub(crate) piece: usize,
    pub(crate) calls: usize,
}

impl Failing {
    pub(crate) fn after(alloc: Global, piece: usize, calls: usize) -> Failing {
        Failing {
            taken: Vec::new(alloc),
            piece,
            calls,
        }
    }

    /// Takes whatever is written.
    pub(crate) fn never(alloc: Global) -> Failing {
        Failing::after(alloc, usize::MAX, usize::MAX)
    }

    fn count(&mut self) -> io::Result<()> {
        if self.calls == 0 {
            return Err(io::Error::from(ErrorKind::BrokenPipe));
        }
        self.calls -= 1;
        Ok(())
    }
}

impl Write for Failing {
    fn write(&mut self, buf: &[u8]) -> io::Result<usize> {
        self.count()?;
        let taken = self.piece.min(buf.len());
        self.taken.extend_from_slice(&buf[..taken])?;
        Ok(taken)
    }

    fn flush(&mut self) -> io::Result<()> {
        self.count()
    }
}

/// The outcome of a run: its status, and what it wrote to both streams.
#[derive(Drop)]
pub(crate) struct Ending {
    pub(crate) status: Status,
    pub(crate) answers: Vec<u8>,
    pub(crate) faults: Vec<u8>,
}

impl Ending {
    pub(crate) fn is(&self, status: Status, answers: &[u8], faults: &[u8]) -> bool {
        self.status == status
            && self.answers.as_slice() == answers
            && self.faults.as_slice() == faults
    }

    /// Whether just this was written: as an answer where the run was done, and as a fault where it wasn't.
    pub(crate) fn tells(&self, status: Status, told: &str) -> bool {
        let told = told.as_bytes();
        if status == Status::Done {
            self.is(status, told, b"")
        } else {
            self.is(status, b"", told)
        }
    }
}

/// A run whose streams are taken as those two writers allow.
pub(crate) fn run_within<R: BufRead>(
    rt: &(impl Threads + Wait + Sync),
    alloc: Global,
    words: &[&str],
    input: &mut R,
    mut answers: Failing,
    mut faults: Failing,
) -> Ending {
    let texts = GivenTexts { texts: &TEXTS };
    let status = run_words(rt, alloc, &texts, words, input, &mut answers, &mut faults);
    Ending {
        status,
        answers: answers.taken,
        faults: faults.taken,
    }
}

/// A run over memory.
pub(crate) fn run(
    rt: &(impl Threads + Wait + Sync),
    alloc: Global,
    words: &[&str],
    bytes: &[u8],
) -> Ending {
    let mut input = bytes;
    run_within(
        rt,
        alloc,
        words,
        &mut input,
        Failing::never(alloc),
        Failing::never(alloc),
    )
}

/// A run over a reader that fails.
pub(crate) fn run_on_pieces(
    rt: &(impl Threads + Wait + Sync),
    alloc: Global,
    words: &[&str],
    pieces: Pieces<'_>,
) -> Result<Ending, Fail> {
    let mut input = BufReader::new(alloc, pieces)?;
    let (answers, faults) = (Failing::never(alloc), Failing::never(alloc));
    Ok(run_within(rt, alloc, words, &mut input, answers, faults))
}

/// A run over one profile, whose answers are taken a few bytes at a time and in at most N calls.
pub(crate) fn run_into_failing(
    rt: &(impl Threads + Wait + Sync),
    alloc: Global,
    words: &[&str],
    piece: usize,
    calls: usize,
) -> Ending {
    let mut input = PASSWD.as_bytes();
    let answers = Failing::after(alloc, piece, calls);
    run_within(rt, alloc, words, &mut input, answers, Failing::never(alloc))
}

/// How many bytes are read at a time, how often, what follows, and how the run ends.
pub(crate) type ReadFault<'a> = (usize, usize, ErrorKind, Status, &'a str);

/// Judges by one profile, over readers that fail.
pub(crate) fn expect_read_faults(
    rt: &(impl Abort + Threads + Wait + Sync),
    alloc: Global,
    words: &[&str],
    rows: &[ReadFault],
) -> Result<(), Fail> {
    for (piece, reads, error, status, told) in rows {
        let pieces = Pieces {
            left: PASSWD.as_bytes(),
            piece: *piece,
            reads: *reads,
            error: *error,
        };
        let ending = run_on_pieces(rt, alloc, words, pieces)?;
        assert!(rt; ending.tells(*status, told), "{words:?} tells {told}");
    }
    Ok(())
}

/// Asserts how a run ends whose fault is taken in at most N calls: nothing is read, and nothing answered.
pub(crate) fn expect_unread(
    rt: &(impl Abort + Threads + Wait + Sync),
    alloc: Global,
    words: &[&str],
    calls: usize,
    wanted: Status,
) {
    let mut input = PASSWD.as_bytes();
    let faults = Failing::after(alloc, 5000, calls);
    let ending = run_within(rt, alloc, words, &mut input, Failing::never(alloc), faults);
    let unread = input.len();
    assert!(rt;
        ending.status == wanted && ending.answers.is_empty() && unread == PASSWD.len(),
        "{words:?} {calls}"
    );
}
