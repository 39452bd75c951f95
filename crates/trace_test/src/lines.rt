//! What each line of a test does, by the section that it is in.
ghost use Rattle.std.specs.Prelude.{◌≡◌, ◌+◌, ◌<◌, ◌≤◌, ◌^◌, [], ℕ, List, OnOk, length};
ghost use Rattle.glob_automaton.specs.Automata.{StateLimit};
ghost use Rattle.mediation.specs.History.{History, MayChangePolicy, policy_version};
ghost use Rattle.trace_report.specs.Output.{line as line_of};
ghost use Rattle.trace_script.specs.Engine.{IsPut};
ghost use Rattle.trace_script.specs.LineValues.{command_value};
ghost use Rattle.trace_script.specs.FollowedScripts.{IsLineFollowed, IsPrinted, IsStep, exactly};
ghost use Rattle.trace_script.specs.RunOutput.{Printed};
ghost use Rattle.trace_script.specs.Script.{outside, publish};
ghost use Rattle.trace_test.specs.Expectations.{unexpected};
ghost use Rattle.test_script.specs.TestScript.{ask, expect, quoted_words, run};
ghost use Rattle.trace_test.specs.inner.Published.{rules_in};
ghost use Rattle.trace_test.specs.inner.Tests.{IsAnswered, asked_step, counted_in, last_by, test_engine, test_step, testing};
ghost use Rattle.test_script.specs.LineValues.{asked_value, test_value, words_value};

use crate::progress::Progress;
use crate::publication::{PolicyAnswer, publish};
use crate::published::Published;
use crate::questions::{explain_line, judge_line};
use mediation::Bench;
use std::alloc::Global;
use std::io::Write;
use test_script::{Asked, TestCommand, parse_test_line, quoted_words};
use trace_script::{Command, LineFollower, LineKind, Section, Stop, command_line, print_line};

impl<B: Bench> LineFollower<B> for Progress {
    ghost use Rattle.std.specs.Prelude.{◌+◌};
    ghost use Rattle.mediation.specs.History.{policy_version};
    ghost use Rattle.trace_script.specs.FollowedScripts.{exactly};
    ghost use Rattle.test_script.specs.TestScript.{TestCommand};
    ghost use Rattle.trace_test.specs.inner.Tests.{Testing, counted_in, test_engine, testing};

    ghost Command = { TestCommand };

    ghost State = { Testing };

    ghost state = { λ progress bench. testing (B.history bench) progress };

    ghost engine = { λ limit. exactly (test_engine limit) };

    // A line publishes, or it expects something, or it refuses a policy, of which nothing may be expected.
    ghost counted = { λ progress bench. policy_version (B.history bench) + counted_in progress };

    fn do_line<A: Write>(
        &mut self,
        alloc: Global,
        bench: &mut B,
        number: u64,
        line: &[u8],
        answers: &mut A,
    ) -> Result<Section, Stop> {
        let words = quoted_words(alloc, line)?;
        do_words(alloc, bench, self, number, line, &words, answers)
    }

    fn do_policy<A: Write>(
        &mut self,
        alloc: Global,
        bench: &mut B,
        start: u64,
        text: &[u8],
        answers: &mut A,
    ) -> Result<(), Stop> {
        ask_policy(alloc, bench, self, start, text, answers)
    }
}

/// Does what the line of this number says, which has these words.
fn do_words<B: Bench, A: Write>(
    alloc: Global,
    bench: &mut B,
    progress: &mut Progress,
    number: u64,
    line: &[u8],
    words: &Option<Vec<Vec<u8>>>,
    answers: &mut A,
) -> Result<Section, Stop>
    requires policy { MayChangePolicy (B.history bench.old).deeds }
    requires room { progress.old.total < 2 ^ 60 }
    requires words { words_value words.now ≡ quoted_words line.now }
    ensures line { (limit : StateLimit) → IsLineFollowed (exactly (test_engine limit)) (testing (B.history bench.old) progress.old) outside
        number line.now (testing (B.history bench.new) progress.new) (A.contents answers.old) (A.contents answers.new) result }
    ensures few { OnOk result (policy_version (B.history bench.new) + counted_in progress.new
        ≤ policy_version (B.history bench.old) + counted_in progress.old + 1) }
{
    let kind = parse_test_line(alloc, number, line, words)?;
    match kind {
        LineKind::Ignored => Ok(Section::Outside),
        LineKind::OpensPolicy => Ok(Section::Within {
            start: number,
            text: Vec::new(alloc),
        }),
        LineKind::Command(command) => {
            do_command(alloc, bench, progress, command, answers)?;
            Ok(Section::Outside)
        }
        LineKind::NoCommand => Err(Stop::NoCommand(number)),
    }
}

/// Does a command: it is answered, or the last answer is compared with what it expects.
fn do_command<B: Bench, A: Write>(
    alloc: Global,
    bench: &mut B,
    progress: &mut Progress,
    command: TestCommand<'_>,
    answers: &mut A,
) -> Result<(), Stop>
    requires policy { MayChangePolicy (B.history bench.old).deeds }
    requires room { progress.old.total < 2 ^ 60 }
    ensures done { (limit : StateLimit) → IsPrinted
        (IsStep (test_step limit (testing (B.history bench.old) progress.old) (test_value command.entry)))
        (testing (B.history bench.new) progress.new) (A.contents answers.old) (A.contents answers.new) result }
    ensures few { OnOk result (policy_version (B.history bench.new) + counted_in progress.new
        ≤ policy_version (B.history bench.old) + counted_in progress.old + 1) }
{
    match command {
        TestCommand::Ask { number, command } => {
            ask(alloc, bench, progress, number, command, answers)
        }
        TestCommand::Expect { number, text } => expect(alloc, progress, number, text, answers),
    }
}

/// Does a command of this line, and keeps its answer.
fn ask<B: Bench, A: Write>(
    alloc: Global,
    bench: &mut B,
    progress: &mut Progress,
    number: u64,
    command: Asked<'_>,
    answers: &mut A,
) -> Result<(), Stop>
    requires policy { MayChangePolicy (B.history bench.old).deeds }
    requires room { progress.old.total < 2 ^ 60 }
    ensures done { (limit : StateLimit) → IsPrinted
        (IsStep (test_step limit (testing (B.history bench.old) progress.old) (ask number (asked_value command.entry))))
        (testing (B.history bench.new) progress.new) (A.contents answers.old) (A.contents answers.new) result }
    ensures few { OnOk result (policy_version (B.history bench.new) + counted_in progress.new
        ≤ policy_version (B.history bench.old) + counted_in progress.old + 1) }
{
    let line = asked_line(alloc, bench, &mut progress.published, command)?;
    report(alloc, progress, number, line, None, answers)
}

/// Does a command, and composes its answer as a line.
fn asked_line<B: Bench>(
    alloc: Global,
    bench: &mut B,
    published: &mut Published,
    command: Asked<'_>,
) -> Result<Vec<u8>, Stop>
    requires { MayChangePolicy (B.history bench.old).deeds }
    ensures line { (limit : StateLimit) → IsAnswered limit (B.history bench.old) (rules_in published.old) (asked_value command.entry)
        (B.history bench.new) (rules_in published.new) result }
    ensures few { OnOk result (policy_version (B.history bench.new) ≤ policy_version (B.history bench.old) + 1) }
{
    match command {
        Asked::Run(command) => run_line(alloc, bench, published, command),
        Asked::Judge(question) => judge_line(alloc, published, question),
        Asked::Explain(question) => explain_line(alloc, published, question),
    }
}

/// Does a command of `run`, and composes its answer as a line.
fn run_line<B: Bench>(
    alloc: Global,
    bench: &mut B,
    published: &mut Published,
    command: Command<'_>,
) -> Result<Vec<u8>, Stop>
    requires { MayChangePolicy (B.history bench.old).deeds }
    ensures line { (limit : StateLimit) → IsAnswered limit (B.history bench.old) (rules_in published.old)
        (run (command_value command.entry)) (B.history bench.new) (rules_in published.new) result }
    ensures few { OnOk result (policy_version (B.history bench.new) ≤ policy_version (B.history bench.old) + 1) }
{
    let line = command_line(alloc, bench, command)?;
    published.follow(command);
    Ok(line)
}

/// Publishes the profile of a text, if it is one, and keeps the answer. The text begins after the line `start`.
fn ask_policy<B: Bench, A: Write>(
    alloc: Global,
    bench: &mut B,
    progress: &mut Progress,
    start: u64,
    text: &[u8],
    answers: &mut A,
) -> Result<(), Stop>
    requires policy { MayChangePolicy (B.history bench.old).deeds }
    requires room { progress.old.total < 2 ^ 60 }
    ensures done { (limit : StateLimit) → IsPrinted
        (IsStep (test_step limit (testing (B.history bench.old) progress.old) (ask start (run (publish text.now)))))
        (testing (B.history bench.new) progress.new) (A.contents answers.old) (A.contents answers.new) result }
    ensures few { OnOk result (policy_version (B.history bench.new) + counted_in progress.new
        ≤ policy_version (B.history bench.old) + counted_in progress.old + 1) }
{
    let PolicyAnswer { line, refused } = publish(
        alloc,
        bench,
        &mut progress.published,
        start,
        text,
    )?;
    report(alloc, progress, start, line, refused, answers)
}

/// Reports the answer of a command of this line as far as it is shown, and keeps it. `refused` is the number of a `policy` line,
/// if the answer refuses that policy.
fn report<A: Write>(
    alloc: Global,
    progress: &mut Progress,
    number: u64,
    line: Vec<u8>,
    refused: Option<u64>,
    answers: &mut A,
) -> Result<(), Stop>
    requires { progress.old.total < 2 ^ 60 }
    ensures done { (history : History) (p : Printed) → line.items ≡ line_of p.text → IsPrinted
        (IsStep (asked_step (testing history progress.old) number p (rules_in progress.old.published) refused))
        (testing p.history progress.new) (A.contents answers.old) (A.contents answers.new) result }
    ensures few { OnOk result (counted_in progress.new ≡ counted_in progress.old + length (unexpected (last_by refused []))) }
{
    let answer = without_line_feed(line);
    let lines = progress.answer_lines(alloc, number, &answer)?;
    progress.keep(answer, refused);
    print_lines(answers, &lines)
}

/// A line without its line feed.
fn without_line_feed(line: Vec<u8>) -> Vec<u8>
    ensures { (text : List ℕ) → line.items ≡ line_of text → result.items ≡ text }
{
    let mut text = line;
    text.pop();
    text
}

/// Compares the last answer with what the line of this number expects, and writes a line where they differ.
fn expect<A: Write>(
    alloc: Global,
    progress: &mut Progress,
    number: u64,
    expected: &[u8],
    answers: &mut A,
) -> Result<(), Stop>
    requires { progress.old.total < 2 ^ 60 }
    ensures done { (limit : StateLimit) (history : History) →
        IsPrinted (IsStep (test_step limit (testing history progress.old) (expect number expected.now)))
        (testing history progress.new) (A.contents answers.old) (A.contents answers.new) result }
    ensures few { OnOk result (counted_in progress.new ≤ counted_in progress.old + 1) }
{
    if progress.compare(expected) {
        return Ok(());
    }
    let line = progress.failure_line(alloc, number, expected)?;
    print_line(answers, &line)
}

/// Writes lines, if there are any.
fn print_lines<A: Write>(answers: &mut A, lines: &[u8]) -> Result<(), Stop>
    ensures { IsPut (A.contents answers.old) (A.contents answers.new) lines.now result }
{
    if lines.is_empty() {
        return Ok(());
    }
    print_line(answers, lines)
}
