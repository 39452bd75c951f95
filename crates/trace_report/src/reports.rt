//! Lines on the output streams.
ghost use Rattle.std.specs.Prelude.{◌≡◌, ◌⊎◌, [], OnOk, OnErr, IfSome, Some, codes};
ghost use Rattle.std.specs.Io.KnownBytes.{Appends};
ghost use Rattle.trace_report.specs.Output.{Output, finding, line, whole_answer};
ghost use Rattle.trace_report.specs.Streams.{Ends, EndsAnswered, IsTold, AppendsFront, streams};
ghost use Rattle.trace_report.specs.declared.status.Status.TheVariants.{OutputFailed};

use crate::status::Status;
use std::fmt::Display;
use std::io;
use std::io::{ErrorKind, Write};

/// Writes the bytes, in as many parts as the writer needs, and flushes them. On an error a prefix of them was written.
pub fn write_through<W: Write>(to: &mut W, bytes: &[u8]) -> io::Result<()>
    ensures ok { OnOk result (Appends (W.contents to.old) (W.contents to.new) bytes.now) }
    ensures err { OnErr result (AppendsFront (W.contents to.old) (W.contents to.new) bytes.now) }
{
    let mut left = bytes;
    for _ in 0..u64::MAX {
        if left.is_empty() {
            return to.flush();
        }
        match to.write(left) {
            Ok(0) => return Err(io::Error::from(ErrorKind::WriteZero)),
            Ok(count) => left = &left[count..],
            Err(error) => {
                if error.kind() != ErrorKind::Interrupted {
                    return Err(error);
                }
            }
        }
    }
    Err(io::Error::from(ErrorKind::TimedOut))
}

/// Writes the text as a line, and flushes it.
fn write_line<W: Write, D: Display + Drop>(to: &mut W, text: D) -> io::Result<()>
    ensures { OnOk result (IfSome (D.output text)
        (λ text. Appends (W.contents to.old) (W.contents to.new) (line text))) }
{
    writeln!(to, "{text}")?;
    to.flush()
}

/// Reports why there is no answer, and returns the status to end with.
pub fn fail<F: Write, D: Display + Drop>(faults: &mut F, message: D, status: Status) -> Status
    ensures { IfSome (D.output message)
        (λ told. IsTold (F.contents faults.old) (F.contents faults.new) told status result) }
{
    match write_line(faults, message) {
        Ok(()) => status,
        Err(_) => Status::FaultsFailed,
    }
}

/// Writes the bytes of an answer. If that fails, a prefix of them was written.
pub fn write_answer<A: Write, F: Write>(answers: &mut A, faults: &mut F, bytes: &[u8]) -> Status
    ensures { Ends
        (streams (A.contents answers.old) (A.contents answers.new) (F.contents faults.old) (F.contents faults.new))
        (whole_answer bytes.now) result }
{
    match write_through(answers, bytes) {
        Ok(()) => Status::Done,
        Err(_) => unwritten(faults),
    }
}

/// Writes the answer to a question, and returns the status that says whether something was found. If that fails, a prefix of the
/// answer was written.
pub fn write_finding<A: Write, F: Write>(
    answers: &mut A,
    faults: &mut F,
    bytes: &[u8],
    found: bool,
) -> Status
    ensures { EndsAnswered
        (streams (A.contents answers.old) (A.contents answers.new) (F.contents faults.old) (F.contents faults.new))
        (λ output. output ≡ finding bytes.now found) result }
{
    match write_through(answers, bytes) {
        Ok(()) => found_status(found),
        Err(_) => unwritten(faults),
    }
}

// Reports that an answer couldn't be written whole.
fn unwritten<F: Write>(faults: &mut F) -> Status
    ensures { IsTold (F.contents faults.old) (F.contents faults.new) (codes "refused: output") OutputFailed result }
{
    fail(faults, "refused: output", Status::OutputFailed)
}

// The status of an answer that was written.
fn found_status(found: bool) -> Status
    ensures { result ≡ (finding [] found).status }
{
    if found { Status::Unmet } else { Status::Done }
}
