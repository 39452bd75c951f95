//! How an import ends: what is written on both streams.
ghost use Rattle.std.specs.Prelude.{◌≡◌, ◌⊎◌, IfOk};
ghost use Rattle.std.specs.Io.KnownBytes.{Appends};
ghost use Rattle.names.specs.Errors.{no_memory_text};
ghost use Rattle.import_profile.specs.Told.{import_fault_value};
ghost use Rattle.trace_report.specs.Output.{line};
ghost use Rattle.trace_report.specs.Streams.{EndsInOne, IsTold, streams};
ghost use Rattle.trace_report.specs.declared.status.Status.TheVariants.{Done};
ghost use Rattle.trace_import.specs.Import.{IsOfStreams, refusal_of};
ghost use Rattle.trace_import.specs.inner.Failures.{IsFailureTold};

use crate::account::refusal_of;
use import_profile::{ImportFailure, ImportFault};
use names::NoMemory;
use std::alloc::Global;
use std::io::Write;
use trace_report::{Status, fail, write_through};

/// Writes the answer, and then the account. If writing the answer fails, a prefix of it was written. Nothing but a stream may fail.
pub(crate) fn write_both<A: Write, F: Write>(
    answers: &mut A,
    faults: &mut F,
    answer: &[u8],
    account: &[u8],
) -> Status
    ensures ends { EndsInOne
        (streams (A.contents answers.old) (A.contents answers.new) (F.contents faults.old) (F.contents faults.new))
        (λ output. output ≡ record { answers = answer.now; faults = account.now; status = Done }) result }
    ensures status { IsOfStreams result }
{
    match write_through(answers, answer) {
        Ok(()) => told(faults, account, Status::Done),
        Err(_) => fail(faults, "refused: output", Status::OutputFailed),
    }
}

/// Writes the bytes of a message, and ends with the status.
fn told<F: Write>(faults: &mut F, bytes: &[u8], status: Status) -> Status
    ensures { (result ≡ Status.FaultsFailed) ⊎ ((result ≡ status) × Appends (F.contents faults.old) (F.contents faults.new) bytes.now) }
{
    match write_through(faults, bytes) {
        Ok(()) => status,
        Err(_) => Status::FaultsFailed,
    }
}

/// Reports why a text is refused.
fn refuse<F: Write>(alloc: Global, text: &[u8], fault: &ImportFault<'_>, faults: &mut F) -> Status
    ensures { IsTold (F.contents faults.old) (F.contents faults.new) (refusal_of text.now (import_fault_value fault.now))
        Status.Refused result
        ⊎ IsTold (F.contents faults.old) (F.contents faults.new) no_memory_text Status.NoMemory result }
{
    match line_of(alloc, text, fault) {
        Ok(line) => told(faults, &line, Status::Refused),
        Err(NoMemory) => fail(faults, NoMemory, Status::NoMemory),
    }
}

/// Reports why a text isn't imported.
pub(crate) fn refuse_failed<F: Write>(
    alloc: Global,
    text: &[u8],
    failure: &ImportFailure<'_>,
    faults: &mut F,
) -> Status
    ensures { IsFailureTold (F.contents faults.old) (F.contents faults.new) text.now failure.now result }
{
    match failure {
        ImportFailure::At(fault) => refuse(alloc, text, fault, faults),
        ImportFailure::NoMemory => fail(faults, NoMemory, Status::NoMemory),
    }
}

/// Why a text is refused, as a line.
fn line_of(alloc: Global, text: &[u8], fault: &ImportFault<'_>) -> Result<Vec<u8>, NoMemory>
    ensures { IfOk result (λ told. told.items ≡ line (refusal_of text.now (import_fault_value fault.now))) }
{
    let mut told = refusal_of(alloc, text, fault)?;
    match told.push(b'\n') {
        Ok(()) => Ok(told),
        Err(_) => Err(NoMemory),
    }
}
