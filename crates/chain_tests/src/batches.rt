//! Many names in one call, next to each name by itself: the same states, and as many look-ups in all; and the same answers to
//! callers in C.
ghost use Rattle.image_judge.specs.Answers.{IsNoneOrLoaded};

use crate::profiles::chained_of;
use crate::worked::STALE;
use image_judge::{judge, judge_all};
use std::alloc::Global;
use std::process::Abort;
use std::test::Fail;
use table_batches::{are_offsets, run_names, run_names_by_image};
use table_image::to_bytes;
use table_verifier::{LookUps, State, Steps, VerifiedImage, VerifiedTable, run, verify_image};
use test_parts::{PROFILE_TEXTS, is_accepted, verified};

// Names in one text, each from an offset to the next.
#[derive(Drop)]
struct Names {
    text: Vec<u8>,
    offsets: Vec<usize>,
}

const NAMES: [&[u8]; 9] = [
    b"/etc/passwd",
    b"",
    b"/usr/lib/deep/er/still/library.so",
    b"/abcabcabcabcabc",
    b"/",
    b"/lib64/a.so",
    b"\0\xff",
    b"/m/x/with/a/longer/name/than/all/of/the/others/here/so/that/the/mean/is/longer/aaabbb",
    b"/a/b/c",
];

// This number of names, in an order of their own, after a byte that no name has.
fn names_of(alloc: Global, count: usize) -> Result<Names, Fail> {
    let mut names = Names {
        text: b"x".to_vec(alloc)?,
        offsets: Vec::new(alloc),
    };
    names.offsets.push(1)?;
    for i in 0..count {
        let name = NAMES.get(i % 7 * 5 % 9).ok_or("no such name")?;
        names.text.extend_from_slice(name)?;
        names.offsets.push(names.text.len())?;
    }
    names.text.push(b'x')?;
    Ok(names)
}

// Names of one length, which run side by side where no state has a depth.
fn equally_long(alloc: Global, count: usize) -> Result<Names, Fail> {
    let mut names = Names {
        text: Vec::new(alloc),
        offsets: Vec::new(alloc),
    };
    names.offsets.push(0)?;
    for i in 0..count {
        names
            .text
            .extend_from_slice(if i % 3 == 0 { b"/abcabca" } else { b"/etc/xab" })?;
        names.offsets.push(names.text.len())?;
    }
    Ok(names)
}

// The state of each name by itself, and the steps and look-ups of all.
fn run_each(
    alloc: Global,
    table: &VerifiedTable,
    names: &Names,
) -> Result<(Vec<State>, u64, u128), Fail> {
    let _bound = table.depth_bound();
    let mut states = Vec::new(alloc);
    let mut steps = 0u64;
    let mut look_ups = 0u128;
    for (begin, end) in names.offsets.iter().zip(names.offsets.iter().skip(1)) {
        let name = names.text.get(*begin..*end).ok_or("no name")?;
        let (mut taken, mut looked) = (Steps::new(), LookUps::new());
        states.push(run(table, name, &mut taken, &mut looked))?;
        steps = steps.saturating_add(taken.count());
        look_ups = look_ups.saturating_add(looked.count());
    }
    Ok((states, steps, look_ups))
}

// States that a run must overwrite.
fn stale(alloc: Global, names: &Names) -> Result<Vec<State>, Fail> {
    Ok(Vec::from_elem(alloc, 9, names.offsets.len().saturating_sub(1))?)
}

fn expect_same(
    rt: &impl Abort,
    alloc: Global,
    table: &VerifiedTable,
    image: &VerifiedImage<'_>,
    names: &Names,
) -> Result<(), Fail> {
    let want = run_each(alloc, table, names)?;
    let text = &names.text[..];
    let offsets = &names.offsets[..];
    assert!(rt; table.depth_bound() == image.depth_bound());
    let mut states = stale(alloc, names)?;
    assert!(rt; are_offsets(text, offsets, states.len()));
    let (mut steps, mut lookups) = (Steps::new(), LookUps::new());
    run_names(table, text, offsets, &mut states, &mut steps, &mut lookups);
    assert!(rt; (states, steps.count(), lookups.count()) == want);
    let mut states = stale(alloc, names)?;
    assert!(rt; are_offsets(text, offsets, states.len()));
    let (mut steps, mut lookups) = (Steps::new(), LookUps::new());
    run_names_by_image(image, text, offsets, &mut states, &mut steps, &mut lookups);
    assert!(rt; (states, steps.count(), lookups.count()) == want);
    Ok(())
}

fn expect_batches(rt: &impl Abort, alloc: Global, text: &[u8], most: u16) -> Result<(), Fail> {
    let table = chained_of(alloc, text, most)?;
    let bytes = to_bytes(alloc, &table)?;
    let table = verified(table)?;
    let image = verify_image(&bytes)?;
    for count in [0, 1, 7, 8, 9, 16, 63, 300] {
        expect_same(rt, alloc, &table, &image, &names_of(alloc, count)?)?;
        expect_same(rt, alloc, &table, &image, &equally_long(alloc, count)?)?;
    }
    Ok(())
}

#[test]
fn names_in_one_call(rt: HostRuntime) -> Result<(), Fail> {
    for text in &PROFILE_TEXTS {
        for most in [0, 4, 64] {
            expect_batches(&rt, rt.alloc(), text, most)?;
        }
    }
    Ok(())
}

// Each name of a batch has the answer that it has by itself.
fn expect_answers(
    rt: &impl Abort,
    alloc: Global,
    image: &[u8],
    names: &Names,
    asked: u32,
) -> Result<(), Fail>
    requires { IsNoneOrLoaded image.now }
{
    let count = names.offsets.len().saturating_sub(1);
    let mut answers = Vec::from_elem(alloc, STALE, count)?;
    judge_all(image, &names.text, &names.offsets, asked, &mut answers);
    let ends = names.offsets.iter().skip(1);
    for (answer, (begin, end)) in answers.iter().zip(names.offsets.iter().zip(ends)) {
        let name = names.text.get(*begin..*end).ok_or("no name")?;
        let mut want = STALE;
        judge(image, name, asked, &mut want);
        assert_eq!(rt; *answer, want);
        assert_eq!(rt; want.steps, name.len() as u64);
    }
    Ok(())
}

// The same for names of several numbers and lengths.
fn expect_all_answers(rt: &impl Abort, alloc: Global, image: &[u8]) -> Result<(), Fail>
    requires { IsNoneOrLoaded image.now }
{
    for count in [1, 8, 300] {
        expect_answers(rt, alloc, image, &names_of(alloc, count)?, 1)?;
        expect_answers(rt, alloc, image, &equally_long(alloc, count)?, 63)?;
    }
    Ok(())
}

fn expect_answers_of(rt: &impl Abort, alloc: Global, text: &[u8]) -> Result<(), Fail> {
    let image = to_bytes(alloc, &chained_of(alloc, text, 4)?)?;
    let image = &image[..];
    assert!(rt; is_accepted(image));
    expect_all_answers(rt, alloc, image)
}

#[test]
fn answers_in_one_call(rt: HostRuntime) -> Result<(), Fail> {
    for text in &PROFILE_TEXTS {
        expect_answers_of(&rt, rt.alloc(), text)?;
    }
    Ok(())
}
