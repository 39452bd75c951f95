//! Images through each function of `image_judge`. They are written by hand: `a` leads from the start to a state whose record
//! allows reading by rule 1 and denies writing by rule 2; all else leads to the dead state. By the image of version 2 that record
//! allows appending by rule 3, too.
ghost use Rattle.image_judge.specs.Answers.{IsNoneOrLoaded};

use image_judge::{Answer, Counts, Fault, count, judge, judge_all, numbers_are_sets, verify};
use std::alloc::Global;
use std::process::Abort;
use std::test::Fail;
use test_parts::is_accepted;

fn image(alloc: Global) -> Result<Vec<u8>, Fail> {
    let mut image = Vec::new(alloc);
    image.extend_from_slice(b"PTAB\x01\x00\x00\x00")?;
    push_states(&mut image)?;
    push_cells(&mut image)?;
    image.extend_from_slice(&[0; 20])?;
    push_record(&mut image)?;
    Ok(image)
}

// The image of version 2, in which no state has a depth.
fn image_of_second(alloc: Global) -> Result<Vec<u8>, Fail> {
    let mut image = Vec::new(alloc);
    image.extend_from_slice(b"PTAB\x02\x00\x00\x00")?;
    push_states(&mut image)?;
    push(&mut image, &[0, 0, 0])?;
    push_cells(&mut image)?;
    image.extend_from_slice(&[0; 24])?;
    push_record(&mut image)?;
    image.extend_from_slice(&[3, 0, 0, 0])?;
    Ok(image)
}

// The counts of states, cells and records; then default, base and accept.
fn push_states(image: &mut Vec<u8>) -> Result<(), Fail> {
    push(image, &[3, 256, 2])?;
    push(image, &[0, 0, 0])?;
    push(image, &[0, 0, 0])?;
    push(image, &[0, 0, 1])
}

// Next and check: state 1 owns the cell of `a`.
fn push_cells(image: &mut Vec<u8>) -> Result<(), Fail> {
    push_row(image, 2, 0)?;
    push_row(image, 1, u32::MAX)
}

// The hits of all permissions but append.
fn push_record(image: &mut Vec<u8>) -> Result<(), Fail> {
    image.extend_from_slice(&[1, 0, 0, 0, 0, 0, 2, 0])?;
    image.extend_from_slice(&[0; 12])?;
    Ok(())
}

fn push(image: &mut Vec<u8>, numbers: &[u32]) -> Result<(), Fail> {
    for number in numbers {
        image.extend_from_slice(&number.to_le_bytes())?;
    }
    Ok(())
}

fn push_row(image: &mut Vec<u8>, of_a: u32, of_others: u32) -> Result<(), Fail> {
    for byte in 0..256u32 {
        push(
            image,
            &[if byte == u32::from(b'a') {
                of_a
            } else {
                of_others
            }],
        )?;
    }
    Ok(())
}

// An answer that each call must overwrite.
const STALE: Answer = Answer {
    steps: 9,
    verdict: 9,
    rule: 9,
    missing: 9,
};

fn answer(verdict: u16, rule: u16, missing: u16, steps: u64) -> Answer {
    Answer {
        steps,
        verdict,
        rule,
        missing,
    }
}

// The answer for a name.
fn told(image: &[u8], name: &[u8], asked: u32) -> Answer
    requires { IsNoneOrLoaded image.now }
{
    let mut answer = STALE;
    judge(image, name, asked, &mut answer);
    answer
}

fn counts_of(states: u32, cells: u32, records: u32) -> Counts {
    Counts {
        states,
        cells,
        records,
    }
}

#[test]
fn images_are_verified(rt: HostRuntime) -> Result<(), Fail> {
    let alloc = rt.alloc();
    let image = image(alloc)?;
    let image = &image[..];
    assert_eq!(rt;
        verify(image),
        Fault {
            number: 0,
            place: 0
        }
    );
    assert_eq!(rt;
        verify(&image[..image.len().min(20)]),
        Fault {
            number: 6,
            place: 0
        }
    );
    assert_eq!(rt;
        verify(b""),
        Fault {
            number: 1,
            place: 0
        }
    );
    assert!(rt; is_accepted(image));
    assert_eq!(rt; count(image), counts_of(3, 256, 2));
    assert_eq!(rt; count(b""), counts_of(0, 0, 0));
    Ok(())
}

#[test]
fn faults_have_places(rt: HostRuntime) -> Result<(), Fail> {
    let alloc = rt.alloc();
    let mut image = image(alloc)?;
    // The default of state 2 is no state.
    if let Some(byte) = image.get_mut(28) {
        *byte = 3;
    }
    assert_eq!(rt;
        verify(&image),
        Fault {
            number: 7,
            place: 2
        }
    );
    Ok(())
}

#[test]
fn names_are_judged(rt: HostRuntime) -> Result<(), Fail> {
    let alloc = rt.alloc();
    let image = image(alloc)?;
    let image = &image[..];
    assert!(rt; is_accepted(image));
    assert_eq!(rt; told(image, b"a", 1), answer(1, 0, 0, 1));
    assert_eq!(rt; told(image, b"a", 3), answer(2, 2, 0, 1));
    assert_eq!(rt; told(image, b"a", 25), answer(3, 0, 24, 1));
    assert_eq!(rt; told(image, b"aa", 1), answer(3, 0, 1, 2));
    assert_eq!(rt; told(image, b"", 1), answer(3, 0, 1, 0));
    Ok(())
}

// Append is 32. Version 1 answers for it what it answers for write.
#[test]
fn append_is_judged_as_write(rt: HostRuntime) -> Result<(), Fail> {
    let alloc = rt.alloc();
    let image = image(alloc)?;
    let image = &image[..];
    assert!(rt; is_accepted(image));
    assert_eq!(rt; told(image, b"a", 32), answer(2, 2, 0, 1));
    assert_eq!(rt; told(image, b"aa", 63), answer(3, 0, 63, 2));
    Ok(())
}

// Version 2 answers for it by its own hits.
#[test]
fn append_is_judged(rt: HostRuntime) -> Result<(), Fail> {
    let alloc = rt.alloc();
    let image = image_of_second(alloc)?;
    let image = &image[..];
    assert!(rt; is_accepted(image));
    assert_eq!(rt; told(image, b"a", 32), answer(1, 0, 0, 1));
    assert_eq!(rt; told(image, b"a", 33), answer(1, 0, 0, 1));
    assert_eq!(rt; told(image, b"a", 34), answer(2, 2, 0, 1));
    assert_eq!(rt; told(image, b"a", 48), answer(3, 0, 16, 1));
    assert_eq!(rt; told(image, b"aa", 63), answer(3, 0, 63, 2));
    Ok(())
}

// No set of permissions, one that isn't known, and no image.
#[test]
fn nothing_is_judged(rt: HostRuntime) -> Result<(), Fail> {
    let alloc = rt.alloc();
    let image = image(alloc)?;
    let image = &image[..];
    assert!(rt; is_accepted(image));
    assert_eq!(rt; told(image, b"a", 0), answer(0, 0, 0, 0));
    assert_eq!(rt; told(image, b"a", 64), answer(0, 0, 0, 0));
    assert_eq!(rt; told(b"", b"a", 1), answer(0, 0, 0, 0));
    numbers_are_sets();
    Ok(())
}

#[test]
fn many_names_are_judged(rt: HostRuntime) -> Result<(), Fail> {
    let alloc = rt.alloc();
    let image = image(alloc)?;
    let image = &image[..];
    assert!(rt; is_accepted(image));
    let mut answers = [STALE; 5];
    // The third name's offsets descend, the fourth ends after the text, and the fifth has no end.
    judge_all(image, b"aba", &[0, 1, 2, 1, 4], 1, &mut answers);
    let none = answer(0, 0, 0, 0);
    let want = [answer(1, 0, 0, 1), answer(3, 0, 1, 1), none, none, none];
    assert_eq!(rt; answers, want);
    Ok(())
}

// This number of names of no, one and two bytes, in one text; a letter more than all of them.
fn small_names(alloc: Global, count: u32) -> Result<(Vec<u8>, Vec<usize>), Fail> {
    let mut text = b"a".to_vec(alloc)?;
    let mut offsets = Vec::new(alloc);
    offsets.push(1)?;
    for i in 0..count {
        for _letter in 0..i % 3 {
            text.push(if i % 4 == 0 { b'b' } else { b'a' })?;
        }
        offsets.push(text.len())?;
    }
    Ok((text, offsets))
}

// Each name of a batch has the answer that it has by itself, or none if it has no offsets.
fn expect_answers(
    rt: &impl Abort,
    alloc: Global,
    image: &[u8],
    text: &[u8],
    offsets: &[usize],
    count: usize,
    asked: u32,
) -> Result<(), Fail>
    requires { IsNoneOrLoaded image.now }
{
    let mut answers = Vec::new(alloc);
    answers.resize(count, STALE)?;
    judge_all(image, text, offsets, asked, &mut answers);
    for i in 0..count {
        let begin = offsets.get(i).copied();
        let end = offsets.get(i.saturating_add(1)).copied();
        let name = text.get(begin.unwrap_or(1)..end.unwrap_or(0));
        let want = match name {
            Some(name) => told(image, name, asked),
            None => answer(0, 0, 0, 0),
        };
        assert_eq!(rt; answers.get(i), Some(&want), "{count} names, {i}");
    }
    Ok(())
}

#[test]
fn names_of_a_batch_are_judged_as_each_is(rt: HostRuntime) -> Result<(), Fail> {
    let alloc = rt.alloc();
    let image = image(alloc)?;
    let image = &image[..];
    assert!(rt; is_accepted(image));
    for count in [0, 1, 7, 8, 9, 127, 128, 129, 136, 257, 600] {
        let (text, offsets) = small_names(alloc, count)?;
        let names = count as usize;
        expect_answers(&rt, alloc, image, &text, &offsets, names, 1)?;
        expect_answers(&rt, alloc, image, &text, &offsets, names, 3)?;
        expect_answers(&rt, alloc, image, &text, &offsets, names, 32)?;
        expect_answers(&rt, alloc, image, &text, &offsets, names, 64)?;
        expect_answers(&rt, alloc, b"", &text, &offsets, names, 1)?;
        // The last name has no end.
        let ends = offsets.len().saturating_sub(1);
        expect_answers(&rt, alloc, image, &text, &offsets[..ends], names, 1)?;
        // The text ends before the last names.
        let half = text.len() / 2;
        expect_answers(&rt, alloc, image, &text[..half], &offsets, names, 1)?;
    }
    Ok(())
}

#[test]
fn one_offset_that_descends_spoils_its_names_alone(rt: HostRuntime) -> Result<(), Fail> {
    let alloc = rt.alloc();
    let image = image(alloc)?;
    let image = &image[..];
    assert!(rt; is_accepted(image));
    let (text, mut offsets) = small_names(alloc, 300)?;
    if let Some(offset) = offsets.get_mut(140) {
        *offset = 0;
    }
    if let Some(offset) = offsets.get_mut(270) {
        *offset = usize::MAX;
    }
    expect_answers(&rt, alloc, image, &text, &offsets, 300, 1)
}
