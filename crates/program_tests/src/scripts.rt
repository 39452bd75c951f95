//! Scripts on a bench that has no memory for anything new, and over streams that fail.
ghost use Rattle.std.specs.Prelude.{[]};

use crate::runs::{Ending, Failing, Pieces};
use directory_tree::Change;
use matcher::MakeFault;
use mediation::{Answer, Bench, LinkAnswer};
use names::{Errno, NoMemory, Perms};
use plain_tree::PlainTree;
use rule_profile::Profile;
use std::alloc::Global;
use std::io::{BufRead, BufReader, ErrorKind};
use std::process::Abort;
use std::test::Fail;
use trace_report::Status;
use trace_script::run_script;

/// The root alone and no profile, and memory for no more.
#[derive(Drop)]
struct FullBench {
    tree: PlainTree,
}

impl FullBench {
    fn new(alloc: Global) -> Result<FullBench, Fail> {
        match PlainTree::new(alloc, 9) {
            Ok(tree) => Ok(FullBench { tree }),
            Err(NoMemory) => Err(Fail::from("no memory")),
        }
    }
}

impl Bench for FullBench {
    ghost history = { λ bench. record { tree = bench.tree; deeds = [] } };

    ghost judged_name = { λ _. [] };

    fn change(&mut self, change: &Change<'_>) -> Result<u64, Errno> {
        self.tree.test(change)?;
        Err(Errno::ENOMEM)
    }

    fn open(&mut self, _profile: &[u8], _path: &[u8], _ask: Perms) -> Result<Answer, NoMemory> {
        Ok(Answer::NoProfile { policy_version: 0 })
    }

    fn link(&mut self, _profile: &[u8], _old: &[u8], _new: &[u8]) -> Result<LinkAnswer, NoMemory> {
        Ok(LinkAnswer::NoProfile { policy_version: 0 })
    }

    fn name(&self) -> &[u8] {
        &[]
    }

    fn publish(&mut self, _profile: Profile) -> Result<u64, MakeFault> {
        Err(MakeFault::NoMemory)
    }

    fn remove(&mut self, _name: &[u8]) -> Result<u64, NoMemory> {
        Err(NoMemory)
    }
}

/// A run whose streams are taken as those two writers allow.
fn run_within<R: BufRead>(
    alloc: Global,
    input: &mut R,
    mut answers: Failing,
    mut faults: Failing,
) -> Result<Ending, Fail> {
    let mut bench = FullBench::new(alloc)?;
    let status = run_script(alloc, &mut bench, input, &mut answers, &mut faults);
    Ok(Ending {
        status,
        answers: answers.taken,
        faults: faults.taken,
    })
}

/// A run over memory.
fn run(alloc: Global, text: &[u8]) -> Result<Ending, Fail> {
    let mut input = text;
    run_within(
        alloc,
        &mut input,
        Failing::never(alloc),
        Failing::never(alloc),
    )
}

/// A run over a reader that fails.
fn run_on_pieces(alloc: Global, pieces: Pieces<'_>) -> Result<Ending, Fail> {
    let mut input = BufReader::new(alloc, pieces)?;
    run_within(
        alloc,
        &mut input,
        Failing::never(alloc),
        Failing::never(alloc),
    )
}

/// A run of two lines that are answered, whose answers are taken seven bytes at a time and in at most the given number of calls.
fn run_into_failing(alloc: Global, calls: usize) -> Result<Ending, Fail> {
    let mut input = b"open p /a r\nopen p /a r\n".as_slice();
    let answers = Failing::after(alloc, 7, calls);
    run_within(alloc, &mut input, answers, Failing::never(alloc))
}

/// A script, and what it has answered where memory is refused.
type Row<'a> = (&'a str, &'a str);

fn expect_refused(rt: &impl Abort, alloc: Global, rows: &[Row]) -> Result<(), Fail> {
    for (text, answers) in rows {
        let ending = run(alloc, text.as_bytes())?;
        assert!(rt;
            ending.is(Status::NoMemory, answers.as_bytes(), b"no memory\n"),
            "{text}"
        );
    }
    Ok(())
}

const ANSWER: &str = "no profile policy 0\n";

const TWO_ANSWERS: &str = "no profile policy 0\nno profile policy 0\n";

#[test]
fn memory_is_refused(rt: HostRuntime) -> Result<(), Fail> {
    expect_refused(
        &rt,
        rt.alloc(),
        &[
            ("open p /a r\nmkdir /a\nopen p /a r\n", ANSWER),
            ("open p /a r\ndrop p\n", ANSWER),
            (
                "judged-link p /a /b\nlink /a /b\nmkdir /a\nopen p /a r\n",
                "no profile policy 0\nENOENT 2\n",
            ),
            ("open p /a r\npolicy\nprofile p {\n}\n.\n", ANSWER),
        ],
    )
}

/// A script is read to its end, and its lines are counted, however many there are.
#[test]
fn more_than_a_million_lines(rt: HostRuntime) -> Result<(), Fail> {
    let mut text = vec![in rt.alloc(); b'\n'; 1_100_000]?;
    text.extend_from_slice(b"open p /a r\nlook /a\n")?;
    let ending = run(rt.alloc(), &text)?;
    let told = b"line 1100002: not a command\n";
    assert!(rt; ending.is(Status::Refused, ANSWER.as_bytes(), told));
    Ok(())
}

/// What follows after N reads, each of a line, and how the run ends.
type ReadFault<'a> = (ErrorKind, usize, Status, &'a str, &'a str);

fn expect_read_faults(rt: &impl Abort, alloc: Global, rows: &[ReadFault]) -> Result<(), Fail> {
    for (error, reads, status, answers, faults) in rows {
        let pieces = Pieces {
            left: b"open p /a r\nopen p /a r\nopen p /a r\n",
            piece: 12,
            reads: *reads,
            error: *error,
        };
        let ending = run_on_pieces(alloc, pieces)?;
        assert!(rt;
            ending.is(*status, answers.as_bytes(), faults.as_bytes()),
            "{reads} {faults}"
        );
    }
    Ok(())
}

/// A line is answered before the next one is read.
#[test]
fn readers_that_fail(rt: HostRuntime) -> Result<(), Fail> {
    let broken = ErrorKind::BrokenPipe;
    let refused = ErrorKind::OutOfMemory;
    expect_read_faults(
        &rt,
        rt.alloc(),
        &[
            (broken, 0, Status::InputFailed, "", "refused: input\n"),
            (broken, 1, Status::InputFailed, ANSWER, "refused: input\n"),
            (
                broken,
                2,
                Status::InputFailed,
                TWO_ANSWERS,
                "refused: input\n",
            ),
            (refused, 0, Status::NoMemory, "", "no memory\n"),
            (refused, 1, Status::NoMemory, ANSWER, "no memory\n"),
            (refused, 2, Status::NoMemory, TWO_ANSWERS, "no memory\n"),
        ],
    )
}

#[test]
fn answers_that_fail(rt: HostRuntime) -> Result<(), Fail> {
    let answers = TWO_ANSWERS.as_bytes();
    // Each line of 20 bytes is written in three parts and flushed, so a ninth call isn't made.
    for (calls, written) in &[
        (0, 0),
        (1, 7),
        (2, 14),
        (3, 20),
        (4, 20),
        (5, 27),
        (6, 34),
        (7, 40),
    ] {
        let ending = run_into_failing(rt.alloc(), *calls)?;
        let front = answers.get(..*written).ok_or("length")?;
        assert!(rt;
            ending.is(Status::OutputFailed, front, b"refused: output\n"),
            "{calls}"
        );
    }
    let ending = run_into_failing(rt.alloc(), 8)?;
    assert!(rt; ending.is(Status::Done, answers, b""));
    Ok(())
}

/// Asserts how a run ends whose fault is not taken.
fn expect_faults_failed(rt: &impl Abort, alloc: Global, text: &str) -> Result<(), Fail> {
    let mut input = text.as_bytes();
    let faults = Failing::after(alloc, 5000, 0);
    let ending = run_within(alloc, &mut input, Failing::never(alloc), faults)?;
    assert!(rt; ending.is(Status::FaultsFailed, b"", b""), "{text}");
    Ok(())
}

#[test]
fn messages_that_fail(rt: HostRuntime) -> Result<(), Fail> {
    expect_faults_failed(&rt, rt.alloc(), "look")?;
    expect_faults_failed(&rt, rt.alloc(), "mkdir /a")
}
