//! Commands over streams in memory, and over a stream that fails.
use std::alloc::Global;
use std::io;
use std::io::{ErrorKind, Read};
use std::process::Abort;
use trace_names::{NamesChoice, select_names};
use trace_report::Status;

/// What a command wrote, and its status.
#[derive(Drop)]
pub(crate) struct Ending {
    pub(crate) status: Status,
    pub(crate) answers: Vec<u8>,
    pub(crate) faults: Vec<u8>,
}

/// What is asked of a profile's text and a list.
#[derive(Clone, Copy)]
pub(crate) struct Question<'a> {
    pub(crate) choice: NamesChoice,
    pub(crate) perms: &'a str,
    pub(crate) profile: &'a [u8],
    pub(crate) list: &'a [u8],
}

/// Selects names of a list in memory.
pub(crate) fn select(alloc: Global, question: Question<'_>) -> Ending {
    let mut list = question.list;
    select_of(alloc, question, &mut list)
}

// Selects names of a list that is read from a stream.
fn select_of<R: Read>(alloc: Global, question: Question<'_>, list: &mut R) -> Ending {
    let mut profile = question.profile;
    let mut answers = Vec::new(alloc);
    let mut faults = Vec::new(alloc);
    let status = select_names(
        alloc,
        question.choice,
        question.perms,
        &mut profile,
        list,
        &mut answers,
        &mut faults,
    );
    Ending {
        status,
        answers,
        faults,
    }
}

/// Asserts how a command ended.
pub(crate) fn expect(
    rt: &impl Abort,
    ending: &Ending,
    status: Status,
    answers: &[u8],
    faults: &[u8],
) {
    assert!(rt; ending.status == status, "{:?}", ending.status);
    assert!(rt;
        ending.answers.as_slice() == answers,
        "{:?}",
        ending.answers
    );
    assert!(rt; ending.faults.as_slice() == faults, "{:?}", ending.faults);
}

/// Gives its bytes, and then fails.
#[derive(Drop)]
struct Failing<'a> {
    left: &'a [u8],
}

impl Read for Failing<'_> {
    fn read(&mut self, buf: &mut [u8]) -> io::Result<usize> {
        let n = buf.len().min(self.left.len());
        if n == 0 {
            return Err(io::Error::from(ErrorKind::BrokenPipe));
        }
        let (given, left) = self.left.split_at(n);
        buf[..n].copy_from_slice(given);
        self.left = left;
        Ok(n)
    }
}

#[test]
fn failed_input_has_no_answer(rt: HostRuntime) {
    let question = Question {
        choice: NamesChoice::of_options(false, false, false),
        perms: "r",
        profile: b"profile p {\n  /etc/* r,\n}\n",
        list: b"",
    };
    let mut list = Failing {
        left: b"/etc/a\n/etc/b\n",
    };
    let ending = select_of(rt.alloc(), question, &mut list);
    expect(&rt, &ending, Status::InputFailed, b"", b"refused: input\n");
}
