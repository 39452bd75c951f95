//! `names PERMS PROFILE`: of a list of names those that a profile allows, or those that it doesn't.
ghost use Rattle.std.specs.Prelude.{◌≡◌, ℕ, IfSome, List, None};
ghost use Rattle.std.specs.Io.KnownBytes.{Keeps};
ghost use Rattle.trace_names.specs.Names.{IsNamesOutput, IsRefusedText};
ghost use Rattle.trace_names.specs.inner.Answers.{IsAnswered, IsAsked, IsCompiledText};
ghost use Rattle.trace_report.specs.ReadStreams.{asked_by};
ghost use Rattle.trace_report.specs.Streams.{EndsInOne, IsTextOf, streams};

use crate::choice::NamesChoice;
use crate::selected::selected_names;
use matcher::CompiledProfile;
use names::{NoMemory, Perms};
use rule_reader::read;
use std::alloc::Global;
use std::io::{Read, Write};
use trace_report::{Fault, Status, asked_by, fail, read_all, write_answer};

/// Reads a profile and compiles it, and then reads a list of names, and writes to `answers` those that are chosen, in the order of
/// the list. A fault is reported on `faults` instead of an answer. The permissions are tested before anything is read, and of the
/// list nothing is read where the profile is refused.
pub fn select_names<P: Read, R: Read, A: Write, F: Write>(
    alloc: Global,
    choice: NamesChoice,
    perms: &str,
    profile: &mut P,
    list: &mut R,
    answers: &mut A,
    faults: &mut F,
) -> Status
    ensures output { (text names : List ℕ) × IsTextOf (P.remaining profile.old) text × IsTextOf (R.remaining list.old) names
        × EndsInOne
        (streams (A.contents answers.old) (A.contents answers.new) (F.contents faults.old) (F.contents faults.new))
        (IsNamesOutput choice perms.now text names) result }
    ensures unread { asked_by perms.now ≡ None
        → Keeps (P.remaining profile.old) (P.remaining profile.new) × Keeps (R.remaining list.old) (R.remaining list.new) }
    ensures refused { IfSome (P.remaining profile.old)
        (λ text. IsRefusedText text → Keeps (R.remaining list.old) (R.remaining list.new)) }
{
    match answer(alloc, choice, perms, profile, list) {
        Ok(text) => write_answer(answers, faults, &text),
        Err(fault) => fail(faults, fault, fault.status()),
    }
}

// What is written of the names, or why there is no answer.
fn answer<P: Read, R: Read>(
    alloc: Global,
    choice: NamesChoice,
    perms: &str,
    profile: &mut P,
    list: &mut R,
) -> Result<Vec<u8>, Fault>
    ensures output { (text names : List ℕ) × IsTextOf (P.remaining profile.old) text × IsTextOf (R.remaining list.old) names
        × IsAnswered (IsNamesOutput choice perms.now text names) result }
    ensures unread { asked_by perms.now ≡ None
        → Keeps (P.remaining profile.old) (P.remaining profile.new) × Keeps (R.remaining list.old) (R.remaining list.new) }
    ensures refused { IfSome (P.remaining profile.old)
        (λ text. IsRefusedText text → Keeps (R.remaining list.old) (R.remaining list.new)) }
{
    let ask = ask_of(perms)?;
    let text = read_all(alloc, profile)?;
    let compiled = compiled(alloc, &text)?;
    let names = read_all(alloc, list)?;
    match selected_names(alloc, choice, &compiled, ask, &names) {
        Ok(text) => Ok(text),
        Err(NoMemory) => Err(Fault::Memory),
    }
}

// The permissions that are asked for, if the letters are some.
fn ask_of(perms: &str) -> Result<Perms, Fault>
    ensures { IsAsked (asked_by perms.now) result }
{
    asked_by(perms).ok_or(Fault::Permissions)
}

// The compiled profile of a text, or why there is none.
fn compiled(alloc: Global, text: &[u8]) -> Result<CompiledProfile, Fault>
    ensures { IsCompiledText text.now result }
{
    let profile = read(alloc, text)?;
    Ok(CompiledProfile::make(alloc, profile)?)
}
