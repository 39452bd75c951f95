//! Where requests are taken and answers are given.
ghost use Rattle.std.specs.Prelude.{◌≡◌, ◌+◌, IfOk, IfSome};

use std::io::{BufRead, Write};
use std::sync::{Mutex, Wait};
use trace_script::{LineRead, Stop, print_line, read_line};

/// The input and the output that all workers share. One worker at a time uses either, as the workers of a server take turns
/// waiting for the next connection.
#[derive(Drop)]
pub(crate) struct Desk<I, O> {
    requests: Mutex<Requests<I>>,
    answers: Mutex<O>,
}

/// The lines of the input that are left, and how many were taken.
#[derive(Drop)]
struct Requests<I> {
    input: I,
    taken: u64,
}

impl<I: BufRead, O: Write> Desk<I, O> {
    pub(crate) fn new(input: I, output: O) -> Desk<I, O> {
        Desk {
            requests: Mutex::new(Requests { input, taken: 0 }),
            answers: Mutex::new(output),
        }
    }

    /// Reads the next line into `line`, replacing its contents, and returns its number; none if no line is left.
    pub(crate) fn take(&self, rt: &impl Wait, line: &mut Vec<u8>) -> Result<Option<u64>, Stop> {
        self.requests.lock(rt).next(line)
    }

    /// Writes an answer as a whole.
    pub(crate) fn give(&self, rt: &impl Wait, answer: &[u8]) -> Result<(), Stop> {
        print_line(&mut *self.answers.lock(rt), answer)
    }
}

impl<I: BufRead> Requests<I> {
    fn next(&mut self, line: &mut Vec<u8>) -> Result<Option<u64>, Stop>
        ensures { IfOk result (λ number. IfSome number (λ number. (number ≡ self.old.taken + 1) × (number ≡ self.new.taken))) }
    {
        match read_line(&mut self.input, line)? {
            LineRead::Whole | LineRead::Last => {
                self.taken = self.taken.checked_add(1).ok_or(Stop::TooLong)?;
                Ok(Some(self.taken))
            }
            LineRead::End => Ok(None),
        }
    }
}
