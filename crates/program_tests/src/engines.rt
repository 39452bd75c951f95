//! Scripts on both engines of `run`: on a keeper, a publisher and a session, and in plain memory. Both write the same bytes.
use crate::runs::{Ending, Failing, Pieces, run, run_on_pieces};
use std::alloc::Global;
use std::io::{BufRead, BufReader, ErrorKind};
use std::process::Abort;
use std::sync::Wait;
use std::test::Fail;
use std::thread::Threads;
use test_parts::{NumberedPath, Random};
use trace_program::run_plain;

// Few entries, so that a full tree refuses some changes.
const CAPACITY: u32 = 7;

const WORDS: [&str; 4] = ["aa-trace", "run", "--capacity", "7"];

/// A run in plain memory.
fn run_in_memory<R: BufRead>(alloc: Global, input: &mut R) -> Ending {
    let mut answers = Failing::never(alloc);
    let mut faults = Failing::never(alloc);
    let status = run_plain(alloc, CAPACITY, input, &mut answers, &mut faults);
    Ending {
        status,
        answers: answers.taken,
        faults: faults.taken,
    }
}

/// Asserts that a script ends alike on both, and returns how many bytes of answers it has.
fn expect_alike(rt: &(impl Abort + Threads + Wait + Sync), alloc: Global, script: &[u8]) -> usize {
    let by_session = run(rt, alloc, &WORDS, script);
    let mut input = script;
    let in_memory = run_in_memory(alloc, &mut input);
    assert!(rt;
        in_memory.is(by_session.status, &by_session.answers, &by_session.faults),
        "{script:?}"
    );
    in_memory.answers.len()
}

/// The text of a path of one or two components.
fn path(alloc: Global, random: &mut Random) -> Result<String, Fail> {
    let path = NumberedPath::new(1 + random.below(11));
    let bytes = Vec::from_slice(alloc, path.as_bytes())?;
    Ok(String::from_utf8(bytes).ok().ok_or("letters")?)
}

const PROFILES: [&str; 5] = [
    "profile p {\n  /** r,\n  deny /b/* w,\n}",
    "profile p {\n  /a/* rwl,\n  /b* rwlkm,\n}",
    "profile q {\n  /{a,b}/[a-c] rw,\n  /c rwl,\n}",
    "profile q {\n  /** rwlkm,\n}",
    "profile q {\n  /a r\n}",
];

/// Draws a command, with its line feed.
fn command(alloc: Global, random: &mut Random) -> Result<String, Fail> {
    let one = path(alloc, random)?;
    let other = path(alloc, random)?;
    let name = random.pick(&["p", "p", "q"]);
    let ask = random.pick(&["r", "w", "rw", "rwk", "m", "rl"]);
    let text = random.pick(&["a", "/b", "../a/b", "..", "c/d"]);
    let profile = random.pick(&PROFILES);
    Ok(match random.below(20) {
        0..2 => format!(in alloc; "mkdir {one}\n")?,
        2..4 => format!(in alloc; "create {one}\n")?,
        4 => format!(in alloc; "symlink {text} {one}\n")?,
        5 => format!(in alloc; "link {one} {other}\n")?,
        6 => format!(in alloc; "unlink {one}\n")?,
        7 => format!(in alloc; "rmdir {one}\n")?,
        8..10 => format!(in alloc; "rename {one} {other}\n")?,
        10..12 => format!(in alloc; "judged-link {name} {one} {other}\n")?,
        12 => format!(in alloc; "policy\n{profile}\n.\n")?,
        13 => format!(in alloc; "drop {name}\n")?,
        // The second one is answered by the verdict of the first, where a session keeps verdicts.
        _ => format!(in alloc; "open {name} {one} {ask}\nopen {name} {one} {ask}\n")?,
    })
}

// The number of scripts, and of commands in each.
const SCRIPTS: u64 = 60;

const COMMANDS: usize = 80;

#[test]
fn drawn_scripts(rt: HostRuntime) -> Result<(), Fail> {
    for seed in 0..SCRIPTS {
        let mut random = Random::new(seed);
        let mut script = Vec::new(rt.alloc());
        for _ in 0..COMMANDS {
            script.extend_from_slice(command(rt.alloc(), &mut random)?.as_bytes())?;
        }
        // Each command is answered by five bytes or more.
        let answers = expect_alike(&rt, rt.alloc(), &script);
        assert!(&rt; answers > 5 * COMMANDS, "{seed}");
    }
    Ok(())
}

#[test]
fn scripts_that_end_early(rt: HostRuntime) {
    for script in &[
        "",
        "mkdir /a\nlook /a\nmkdir /b\n",
        "mkdir /a\npolicy\nprofile p {\n}\n",
        "mkdir /a\nopen p /a x\n",
        "create /f\nrename /f\n",
        "mkdir /a\n\u{e9} /a\n",
    ] {
        expect_alike(&rt, rt.alloc(), script.as_bytes());
    }
}

fn pieces(reads: usize) -> Pieces<'static> {
    Pieces {
        left: b"mkdir /a\nmkdir /b\nmkdir /c\n",
        piece: 9,
        reads,
        error: ErrorKind::BrokenPipe,
    }
}

#[test]
fn readers_that_fail_a_script(rt: HostRuntime) -> Result<(), Fail> {
    for reads in 0..4 {
        let by_session = run_on_pieces(&rt, rt.alloc(), &WORDS, pieces(reads))?;
        let mut input = BufReader::new(rt.alloc(), pieces(reads))?;
        let in_memory = run_in_memory(rt.alloc(), &mut input);
        assert!(&rt;
            in_memory.is(by_session.status, &by_session.answers, &by_session.faults),
            "{reads}"
        );
    }
    Ok(())
}
