//! Drawn profiles, compared with an oracle that judges all short names one by one.
use crate::commands::{Row, differ_in_memory, search_in_memory};
use crate::short_names::short_names;
use names::{Permission, Perms, Verdict};
use rule_judge::judge_slow;
use rule_profile::Profile;
use rule_reader::read;
use std::alloc::Global;
use std::process::Abort;
use std::test::Fail;
use test_parts::Random;
use trace_questions::{Quantifier, Witnesses};
use trace_report::Status;

// What paths are made of, after their first slash.
const PIECES: [&str; 12] = [
    "a", "b", "/", "a*", "*b", "?", "[ab]", "[^a]", "{a,b}", "{,/b}", "a**", "**/",
];

const PERMS: [&str; 4] = ["r", "w", "rw", "a"];

// How many bytes the names of the oracle have at most.
const MOST_BYTES: usize = 5;

// How many pairs of profiles a test compares.
const PAIRS: u64 = 250;

// A path of one to three pieces.
fn draw_path(alloc: Global, random: &mut Random) -> Result<String, Fail> {
    let first = random.pick(&PIECES);
    let second = random.pick(&PIECES);
    let third = random.pick(&PIECES);
    Ok(match random.below(3) {
        0 => format!(in alloc; "/{first}")?,
        1 => format!(in alloc; "/{first}{second}")?,
        _ => format!(in alloc; "/{first}{second}{third}")?,
    })
}

// The text of a profile of one to four rules, of which one in four denies.
fn draw_profile(alloc: Global, random: &mut Random) -> Result<Vec<u8>, Fail> {
    let mut text = Vec::from_slice(alloc, b"profile p {\n")?;
    for _ in 0..1 + random.below(4) {
        let deny = if random.below(4) == 0 { "deny " } else { "" };
        let path = draw_path(alloc, random)?;
        let perms = random.pick(&PERMS);
        let rule = format!(in alloc; "  {deny}{path} {perms},\n")?;
        text.extend_from_slice(rule.as_bytes())?;
    }
    text.extend_from_slice(b"}\n")?;
    Ok(text)
}

// A profile with its text.
#[derive(Drop)]
struct Drawn {
    text: Vec<u8>,
    profile: Profile,
}

impl Drawn {
    fn new(alloc: Global, random: &mut Random) -> Result<Drawn, Fail> {
        let text = draw_profile(alloc, random)?;
        let profile = read(alloc, &text)?;
        Ok(Drawn { text, profile })
    }

    fn allows(&self, name: &[u8], ask: Perms) -> bool {
        judge_slow(&self.profile, name, ask) == Verdict::Allowed
    }
}

// The profile whose one rule allows to read what a pattern matches.
fn reader_of(alloc: Global, pattern: &str) -> Result<Drawn, Fail> {
    let text = format!(in alloc; "profile p {{\n  {pattern} r,\n}}\n")?.into_bytes();
    let profile = read(alloc, &text)?;
    Ok(Drawn { text, profile })
}

// What is asked of a profile's names.
#[derive(Drop)]
struct Asked {
    quantifier: Quantifier,
    letters: &'static str,
    ask: Perms,
    pattern: String,
    taken: Drawn,
}

impl Asked {
    fn new(alloc: Global, random: &mut Random, quantifier: Quantifier) -> Result<Asked, Fail> {
        let letters = random.pick(&PERMS);
        let pattern = draw_path(alloc, random)?;
        let taken = reader_of(alloc, &pattern)?;
        Ok(Asked {
            quantifier,
            letters,
            ask: Perms::from_letters(letters.as_bytes()).ok_or("permissions")?,
            pattern,
            taken,
        })
    }

    // Whether the name is one that the answer may have.
    fn wants(&self, drawn: &Drawn, name: &[u8]) -> bool {
        let read = Perms::NONE.with(Permission::Read);
        let allowed = drawn.allows(name, self.ask);
        self.taken.allows(name, read)
            && match self.quantifier {
                Quantifier::Any(_) => allowed,
                Quantifier::All => !allowed,
            }
    }
}

// The least of some names that the answer may have.
fn first_wanted<'a>(asked: &Asked, drawn: &Drawn, names: &'a [Vec<u8>]) -> Option<&'a [u8]> {
    for name in names {
        if asked.wants(drawn, name) {
            return Some(name);
        }
    }
    None
}

// The least of some names that one profile alone allows something to.
fn first_alone<'a>(
    more: &Drawn,
    less: &Drawn,
    ask: Perms,
    names: &'a [Vec<u8>],
) -> Option<&'a [u8]> {
    for name in names {
        if more.allows(name, ask) && !less.allows(name, ask) {
            return Some(name);
        }
    }
    None
}

// What comes after the front in the line that begins with it.
fn rest_of_line<'a>(lines: &'a [u8], front: &[u8]) -> Option<&'a [u8]> {
    for line in lines.split(|byte| *byte == b'\n') {
        if line.starts_with(front) {
            return line.get(front.len()..);
        }
    }
    None
}

// What comes before the first colon.
fn before_colon(line: &[u8]) -> &[u8] {
    match line.iter().position(|byte| *byte == b':') {
        Some(end) => line.get(..end).unwrap_or(line),
        None => line,
    }
}

// The word before the name of an answer.
fn front_of(quantifier: Quantifier) -> &'static [u8] {
    match quantifier {
        Quantifier::Any(_) => b"any ",
        Quantifier::All => b"not ",
    }
}

// The answer to a question: the oracle's name, or, where it has none, a longer one, or none.
fn expect_answer(rt: &impl Abort, alloc: Global, drawn: &Drawn, asked: &Asked, names: &[Vec<u8>]) {
    let row = Row {
        quantifier: asked.quantifier,
        perms: asked.letters,
        pattern: &asked.pattern,
        profile: &drawn.text,
    };
    let ending = search_in_memory(alloc, row);
    let found = rest_of_line(&ending.answers, front_of(asked.quantifier));
    match (first_wanted(asked, drawn, names), found) {
        (Some(name), found) => assert!(rt; found == Some(name)),
        (None, Some(name)) => assert!(rt; name.len() > MOST_BYTES && asked.wants(drawn, name)),
        (None, None) => {}
    }
    assert!(rt; found.is_some() == (ending.status == Status::Unmet));
}

// The front of a line of a difference, up to the name.
fn sign_of(alloc: Global, sign: &[u8], permission: Permission) -> Result<Vec<u8>, Fail> {
    let mut front = Vec::from_slice(alloc, sign)?;
    front.push(permission.letter())?;
    front.push(b' ')?;
    Ok(front)
}

// The line of a permission that one of two profiles alone allows to some names: its name is the oracle's, or, where it has none, a
// longer one, or there is no line.
fn expect_difference(
    rt: &impl Abort,
    lines: &[u8],
    front: &[u8],
    names: &[Vec<u8>],
    ask: Perms,
    more: &Drawn,
    less: &Drawn,
) {
    let found = rest_of_line(lines, front).map(before_colon);
    match (first_alone(more, less, ask, names), found) {
        (Some(name), found) => assert!(rt; found == Some(name)),
        (None, Some(name)) => {
            assert!(rt;
                name.len() > MOST_BYTES && more.allows(name, ask) && !less.allows(name, ask)
            );
        }
        (None, None) => {}
    }
}

// All lines about two profiles.
fn expect_differences(
    rt: &impl Abort,
    alloc: Global,
    old: &Drawn,
    new: &Drawn,
    names: &[Vec<u8>],
) -> Result<(), Fail> {
    let ending = differ_in_memory(alloc, None, Witnesses::Least, &old.text, &new.text);
    let lines = ending.answers.as_slice();
    for permission in Permission::ALL {
        let ask = Perms::NONE.with(permission);
        let front = sign_of(alloc, b"+ ", permission)?;
        expect_difference(rt, lines, &front, names, ask, new, old);
        let front = sign_of(alloc, b"- ", permission)?;
        expect_difference(rt, lines, &front, names, ask, old, new);
    }
    assert!(rt; (lines == b"same\n".as_slice()) == (ending.status == Status::Done));
    Ok(())
}

// A pair of drawn profiles.
fn expect_pair(rt: &impl Abort, alloc: Global, seed: u64, names: &[Vec<u8>]) -> Result<(), Fail> {
    let mut random = Random::new(seed);
    let old = Drawn::new(alloc, &mut random)?;
    let new = Drawn::new(alloc, &mut random)?;
    let any = Asked::new(alloc, &mut random, Quantifier::Any(Witnesses::Least))?;
    expect_answer(rt, alloc, &old, &any, names);
    let all = Asked::new(alloc, &mut random, Quantifier::All)?;
    expect_answer(rt, alloc, &new, &all, names);
    expect_differences(rt, alloc, &old, &new, names)
}

fn expect_pairs(rt: &impl Abort, alloc: Global, first: u64) -> Result<(), Fail> {
    let names = short_names(alloc, MOST_BYTES)?;
    for seed in 0..PAIRS {
        expect_pair(rt, alloc, first.wrapping_add(seed), &names)?;
    }
    Ok(())
}

#[test]
fn first_pairs(rt: HostRuntime) -> Result<(), Fail> {
    expect_pairs(&rt, rt.alloc(), 0)
}

#[test]
fn second_pairs(rt: HostRuntime) -> Result<(), Fail> {
    expect_pairs(&rt, rt.alloc(), 250)
}

#[test]
fn third_pairs(rt: HostRuntime) -> Result<(), Fail> {
    expect_pairs(&rt, rt.alloc(), 500)
}

#[test]
fn fourth_pairs(rt: HostRuntime) -> Result<(), Fail> {
    expect_pairs(&rt, rt.alloc(), 750)
}

#[test]
fn fifth_pairs(rt: HostRuntime) -> Result<(), Fail> {
    expect_pairs(&rt, rt.alloc(), 1_000)
}

#[test]
fn sixth_pairs(rt: HostRuntime) -> Result<(), Fail> {
    expect_pairs(&rt, rt.alloc(), 1_250)
}

#[test]
fn seventh_pairs(rt: HostRuntime) -> Result<(), Fail> {
    expect_pairs(&rt, rt.alloc(), 1_500)
}

#[test]
fn eighth_pairs(rt: HostRuntime) -> Result<(), Fail> {
    expect_pairs(&rt, rt.alloc(), 1_750)
}
