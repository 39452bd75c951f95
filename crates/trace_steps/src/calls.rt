//! Calls of sessions.
ghost use Rattle.std.specs.Prelude.{◌≡◌, ◌++◌, OnOk, IfErr};
ghost use Rattle.event_machine.specs.Coded.{event_of};
ghost use Rattle.event_machine.specs.Lawful.{HasTurn};
ghost use Rattle.event_machine.specs.Machine.Event.{read_cell};
ghost use Rattle.trace_script.specs.Engine.{IsText};
ghost use Rattle.trace_steps.specs.StepLines.{TakesOne, TakesUpTo, Goes, OpensWhole, told_text, not_now, none_taken};
ghost use Rattle.trace_steps.specs.inner.Actions.{HasLine, IsDone, IsLedOn, IsAnswered, IsTurnTaken};
ghost use Rattle.trace_script.specs.declared.stop.Stop.TheVariants.{Memory};

use event_machine::{Event, EventMachine, StepFault};
use justification::Answer;
use names::Perms;
use std::alloc::Global;
use trace_script::{Stop, answer_line, joined};

/// The session for whole opens: no script can name it.
const FRESH_SESSION: u32 = 10;

/// The line that says that an event isn't legal.
pub(crate) fn not_now_line(alloc: Global) -> Result<Vec<u8>, Stop>
    ensures { IsText not_now result }
{
    let line = Vec::from_slice(alloc, b"not now\n")?;
    Ok(line)
}

/// Takes one event, which prints nothing.
pub(crate) fn take_one<M: EventMachine>(
    alloc: Global,
    machine: &mut M,
    event: &Event<'_>,
) -> Result<Option<Vec<u8>>, Stop>
    ensures { IsDone (λ lines. TakesOne (M.machine machine.old) (event_of event.now) lines (M.machine machine.new)) result }
{
    match machine.step(event) {
        Ok(_) => Ok(None),
        Err(StepFault::NotNow) => Ok(Some(not_now_line(alloc)?)),
        Err(StepFault::NoMemory) => Err(Stop::Memory),
    }
}

/// Reads at most `most` cells for a session.
pub(crate) fn read_cells<M: EventMachine>(
    alloc: Global,
    machine: &mut M,
    session: u32,
    most: usize,
) -> Result<Option<Vec<u8>>, Stop>
    ensures { IsDone (λ lines. TakesUpTo (M.machine machine.old) most (read_cell session) lines (M.machine machine.new)) result }
{
    match machine.read_cells(session, most) {
        Ok(count) => none_taken_line(alloc, most, count),
        Err(_) => Err(Stop::Memory),
    }
}

/// What is printed if `count` of at most `most` events were taken.
pub(crate) fn none_taken_line(
    alloc: Global,
    most: usize,
    count: usize,
) -> Result<Option<Vec<u8>>, Stop>
    ensures { IsDone (λ lines. lines ≡ none_taken most count) result }
{
    if most > 0 && count == 0 {
        Ok(Some(not_now_line(alloc)?))
    } else {
        Ok(None)
    }
}

/// Does the rest of a session's call, and composes the line of its answer.
pub(crate) fn go_line<M: EventMachine>(
    alloc: Global,
    machine: &mut M,
    session: u32,
) -> Result<Vec<u8>, Stop>
    ensures { HasLine (λ lines. Goes (M.machine machine.old) session lines (M.machine machine.new)) result }
{
    match finish(machine, session)? {
        Some(told) => {
            let start = format!(in alloc; "{session}: ")?;
            told_line(alloc, &start, &told, machine.name(session))
        }
        None => not_now_line(alloc),
    }
}

/// Opens a path with a session of its own, and composes the line of the answer.
pub(crate) fn open_line<M: EventMachine>(
    alloc: Global,
    machine: &mut M,
    profile: &[u8],
    path: &[u8],
    ask: Perms,
) -> Result<Vec<u8>, Stop>
    ensures { HasLine (λ lines. OpensWhole (M.machine machine.old) (record { profile = profile.now; path = path.now; ask = ask }) lines
        (M.machine machine.new)) result }
{
    let begin = Event::Begin {
        session: FRESH_SESSION,
        profile,
        path,
        ask,
    };
    match machine.step(&begin) {
        Ok(_) => {}
        Err(StepFault::NotNow) => return not_now_line(alloc),
        Err(StepFault::NoMemory) => return Err(Stop::Memory),
    }
    match finish(machine, FRESH_SESSION)? {
        Some(told) => told_line(alloc, "", &told, machine.name(FRESH_SESSION)),
        // The session has begun its call.
        None => unreachable!(),
    }
}

/// Does the rest of a session's call and returns its answer, or nothing if the session has begun none.
fn finish<M: EventMachine>(machine: &mut M, session: u32) -> Result<Option<Answer>, Stop>
    ensures { IsAnswered session (M.machine machine.old) (M.machine machine.new) result }
{
    lead_on(machine, &Event::PolicyRead(session))?;
    lead_on(machine, &Event::CountRead(session))?;
    read_all_cells(machine, session)?;
    lead_on(machine, &Event::CountCheck(session))?;
    match machine.step(&Event::Answer(session)) {
        Ok(told) => Ok(told),
        Err(StepFault::NotNow) => Ok(None),
        Err(StepFault::NoMemory) => Err(Stop::Memory),
    }
}

/// Takes an event that leads a call on, if it is its turn.
fn lead_on<M: EventMachine>(machine: &mut M, event: &Event<'_>) -> Result<(), Stop>
    ensures ok { OnOk result (IsTurnTaken (M.machine machine.old) (event_of event.now) (M.machine machine.new)) }
    ensures err { IfErr result (λ stop. stop ≡ Memory) }
{
    match machine.step(event) {
        Ok(_) | Err(StepFault::NotNow) => Ok(()),
        Err(StepFault::NoMemory) => Err(Stop::Memory),
    }
}

/// Reads all cells that a session's walk needs.
fn read_all_cells<M: EventMachine>(machine: &mut M, session: u32) -> Result<(), Stop>
    ensures led { OnOk result (IsLedOn session (M.machine machine.old) (M.machine machine.new)) }
    ensures all { OnOk result (¬ (HasTurn (M.machine machine.new) (read_cell session))) }
    ensures err { IfErr result (λ stop. stop ≡ Memory) }
{
    loop {
        match machine.read_cells(session, usize::MAX) {
            Ok(count) if count == usize::MAX => {}
            Ok(_) => return Ok(()),
            Err(_) => return Err(Stop::Memory),
        }
    }
}

/// An answer, with the name that was judged, after the beginning of its line.
fn told_line(alloc: Global, start: &str, told: &Answer, name: &[u8]) -> Result<Vec<u8>, Stop>
    ensures { IsText (start.now ++ told_text name.now told.now) result }
{
    let line = answered_line(alloc, told, name)?;
    let line = joined(alloc, start, &line, "")?;
    Ok(line)
}

/// An answer as a line.
fn answered_line(alloc: Global, told: &Answer, name: &[u8]) -> Result<Vec<u8>, Stop>
    ensures { IsText (told_text name.now told.now) result }
{
    match *told {
        Answer::Judged {
            verdict,
            node,
            tree_version,
            policy_version,
        } => {
            let judged = mediation::Answer::Judged {
                verdict,
                node,
                tree_version,
                policy_version,
            };
            answer_line(alloc, &judged, name)
        }
        Answer::Failed {
            errno,
            tree_version,
        } => {
            let failed = mediation::Answer::Failed {
                errno,
                tree_version,
            };
            answer_line(alloc, &failed, name)
        }
        Answer::NoProfile { policy_version } => {
            answer_line(
                alloc,
                &mediation::Answer::NoProfile { policy_version },
                name,
            )
        }
        Answer::Busy { began, ended } => {
            let line = format!(in alloc; "busy {began} {ended}\n")?;
            Ok(line.into_bytes())
        }
        // No machine gives this answer.
        Answer::NoEntry => Err(Stop::Memory),
    }
}
