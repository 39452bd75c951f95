//! `run --capacity N`: a script of tree changes, policies and opens, answered line by line.
ghost use Rattle.std.specs.Prelude.{◌≡◌};
ghost use Rattle.mediation.specs.History.{policy_version};
ghost use Rattle.trace_report.specs.Streams.{streams};
ghost use Rattle.trace_script.specs.RunOutput.{ScriptEndsOver};

use crate::commands::{answer_command, answer_policy};
use crate::follower::{LineFollower, follow_script};
use crate::line::{LineKind, parse_line};
use crate::section::Section;
use crate::stop::Stop;
use mediation::Bench;
use std::alloc::Global;
use std::io::{BufRead, Write};
use trace_report::{Status, fail};

/// Answers a script line by line, up to its end or to a line that is no command.
pub fn run_script<B: Bench, R: BufRead, A: Write, F: Write>(
    alloc: Global,
    bench: &mut B,
    input: &mut R,
    answers: &mut A,
    faults: &mut F,
) -> Status
    requires { policy_version (B.history bench.old) ≡ 0 }
    ensures { ScriptEndsOver
        (streams (A.contents answers.old) (A.contents answers.new) (F.contents faults.old) (F.contents faults.new))
        (R.remaining input.old) (R.remaining input.new) (B.history bench.old) result }
{
    match follow_script(alloc, &mut Answering, bench, input, answers) {
        Ok(()) => Status::Done,
        Err(stop) => fail(faults, stop, stop.status()),
    }
}

/// Answers each command by a line.
#[derive(Drop)]
struct Answering;

impl<B: Bench> LineFollower<B> for Answering {
    ghost use Rattle.mediation.specs.History.{History, policy_version};
    ghost use Rattle.trace_script.specs.FollowedScripts.{exactly};
    ghost use Rattle.trace_script.specs.Script.{Command};
    ghost use Rattle.trace_script.specs.inner.FollowedScripts.{run_engine};

    ghost Command = { Command };

    ghost State = { History };

    ghost state = { λ _ bench. B.history bench };

    ghost engine = { λ limit. exactly (run_engine limit) };

    ghost counted = { λ _ bench. policy_version (B.history bench) };

    fn do_line<A: Write>(
        &mut self,
        alloc: Global,
        bench: &mut B,
        number: u64,
        line: &[u8],
        answers: &mut A,
    ) -> Result<Section, Stop> {
        match parse_line(line) {
            LineKind::Ignored => Ok(Section::Outside),
            LineKind::OpensPolicy => Ok(Section::Within {
                start: number,
                text: Vec::new(alloc),
            }),
            LineKind::Command(command) => {
                answer_command(alloc, bench, command, answers)?;
                Ok(Section::Outside)
            }
            LineKind::NoCommand => Err(Stop::NoCommand(number)),
        }
    }

    fn do_policy<A: Write>(
        &mut self,
        alloc: Global,
        bench: &mut B,
        _start: u64,
        text: &[u8],
        answers: &mut A,
    ) -> Result<(), Stop> {
        answer_policy(alloc, bench, text, answers)
    }
}
