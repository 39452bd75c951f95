//! Walks over words that become known one after the other.
use crate::rows::{SLOTS, row_of};
use directory_tree::Last;
use names::Errno;
use path_lookup::Scratch;
use std::alloc::Global;
use std::test::Fail;
use test_parts::path;
use tree_row::{
    KnownRow, KnownWords, Stop, name_and_read, name_known, name_place_and_read, name_place_known,
    walk_and_read, walk_known,
};

// A path, how many words a walk along it and the name of what it leads to need, and the name.
type Walk<'a> = (&'a [u8], usize, Result<&'a [u8], Errno>);

// A component's search reads the words of the index from its home on, up to the one that names its slot, or one that is 0. Of each
// slot that they name it reads the directory, then the lengths if the directory is the one that is searched, and then the
// component's words, as far as they agree, if the length is the same, too. The walk then reads the kind of the slot that is found.
// Of the 16 words those at 0, 1, 2, 8 and 12 name the slots 1, 2, 3, 5 and 7.
const WALKS: [Walk<'static>; 5] = [
    // No word at all: the root is the root in every row.
    (b"/", 0, Ok(b"/")),
    // Word 8 of the index; slot 5: 3 words, and 2 of its component.
    (b"/a_long_directory", 6, Ok(b"/a_long_directory/")),
    // In addition, word 1 of the index; slot 2: 3 words, and 3 of its component.
    (
        b"/a_long_directory/file.of.17.bytes.",
        13,
        Ok(b"/a_long_directory/file.of.17.bytes."),
    ),
    // Words 8 and 9 of the index; slot 5, whose component is longer: 2 words.
    (b"/x", 4, Err(Errno::ENOENT)),
    // Words 0 to 2 of the index; slots 1 and 2, which are in another directory: a word each; slot 3: 3 words, its component, and
    // its text.
    (b"/ring", 10, Err(Errno::ELOOP)),
];

// Gives a walk the words that it asks for, one after the other. Returns whether it asks for none twice, and the number of words
// and the end are as listed.
fn is_asked(alloc: Global, row: &KnownRow, walk: &Walk) -> Result<bool, Fail> {
    let (text, words, want) = walk;
    let text = path(text)?;
    let mut known = KnownWords::new(alloc, 8);
    let mut room = [0; 4096];
    for asked in 0..row.length() {
        match name_known(&known, &text, Last::Follow, &mut Scratch::new(), &mut room) {
            Ok(reached) => return Ok(asked == *words && Ok(&room[..reached.length]) == *want),
            Err(Stop::Refused(errno)) => return Ok(asked == *words && Err(errno) == *want),
            Err(Stop::Wants(place)) => {
                if place >= row.length() || known.word(place).is_some() {
                    return Ok(false);
                }
                known.learn(place, row.cell(place)).ok().ok_or("memory")?;
            }
            Err(Stop::Torn) | Err(Stop::NoMemory) => return Ok(false),
        }
    }
    Ok(false)
}

// The same for a walk that reads at most `most` words at a time.
fn is_read(alloc: Global, row: &KnownRow, walk: &Walk, most: usize) -> Result<bool, Fail> {
    let (text, words, want) = walk;
    let text = path(text)?;
    let mut known = KnownWords::new(alloc, 8);
    let mut room = [0; 4096];
    for _ in 0..row.length() {
        if known.capacity() != row.capacity() {
            return Ok(false);
        }
        let came = name_and_read(
            alloc,
            &known,
            row,
            most,
            &text,
            Last::Follow,
            &mut Scratch::new(),
            &mut room,
        );
        let read = came.read.count();
        known.append(came.read).ok().ok_or("memory")?;
        match came.end {
            Ok(reached) => return Ok(
                known.count() == *words && Ok(&room[..reached.length]) == *want,
            ),
            Err(Stop::Refused(errno)) => return Ok(known.count() == *words && Err(errno) == *want),
            Err(Stop::Wants(place)) => {
                if read != most || known.word(place).is_some() {
                    return Ok(false);
                }
            }
            Err(Stop::Torn) | Err(Stop::NoMemory) => return Ok(false),
        }
    }
    Ok(false)
}

#[test]
fn words_are_asked_for_once(rt: HostRuntime) -> Result<(), Fail> {
    let row = row_of(rt.alloc(), 8, &SLOTS)?;
    for walk in &WALKS {
        assert!(rt; is_asked(rt.alloc(), &row, walk)?, "{walk:?}");
    }
    Ok(())
}

#[test]
fn words_are_read_a_few_at_a_time(rt: HostRuntime) -> Result<(), Fail> {
    let row = row_of(rt.alloc(), 8, &SLOTS)?;
    for walk in &WALKS {
        for most in 1..20 {
            assert!(rt; is_read(rt.alloc(), &row, walk, most)?, "{walk:?} {most}");
        }
    }
    Ok(())
}

#[test]
fn no_word_is_read_where_none_may_be(rt: HostRuntime) -> Result<(), Fail> {
    let row = row_of(rt.alloc(), 8, &SLOTS)?;
    let known = KnownWords::new(rt.alloc(), row.capacity());
    let came = walk_and_read(
        rt.alloc(),
        &known,
        &row,
        0,
        &path(b"/l")?,
        Last::Stay,
        &mut Scratch::new(),
    );
    assert_eq!(rt; came.read.count(), 0);
    // The word of the index at the home of `l`; the nine slots end at 1,476.
    assert_eq!(rt; came.end.err(), Some(Stop::Wants(1476 + 12)));
    Ok(())
}

#[test]
fn words_are_read_where_they_may_be(rt: HostRuntime) -> Result<(), Fail> {
    let row = row_of(rt.alloc(), 8, &SLOTS)?;
    let known = KnownWords::new(rt.alloc(), row.capacity());
    let came = walk_and_read(
        rt.alloc(),
        &known,
        &row,
        100,
        &path(b"/l")?,
        Last::Stay,
        &mut Scratch::new(),
    );
    assert_eq!(rt; came.end.ok().map(|entry| entry.slot()), Some(7));
    let mut room = [0; 4096];
    let came = name_place_and_read(
        rt.alloc(),
        &known,
        &row,
        100,
        &path(b"/l/new")?,
        &mut Scratch::new(),
        &mut room,
    );
    assert_eq!(rt; came.end.ok(), Some(21));
    assert!(rt; room.starts_with(b"/a_long_directory/new"));
    Ok(())
}

#[test]
fn what_is_known_may_fit_no_tree(rt: HostRuntime) -> Result<(), Fail> {
    let mut known = KnownWords::new(rt.alloc(), 8);
    let at = path(b"/a")?;
    // The index names slot 1 at the home of `a`. The slot holds the entry `a` of the root, and its kind is invalid.
    for (place, word) in [(1477, 2), (164, 4), (166, 0), (167, 1), (168, 97)] {
        known.learn(place, word).ok().ok_or("memory")?;
    }
    let end = walk_known(&known, &at, Last::Follow, &mut Scratch::new());
    assert_eq!(rt; end.err(), Some(Stop::Torn));
    // As a file, it is found.
    known.learn(164, 2).ok().ok_or("memory")?;
    let end = walk_known(&known, &at, Last::Follow, &mut Scratch::new());
    assert_eq!(rt; end.ok().map(|entry| entry.slot()), Some(1));
    let mut room = [0; 4096];
    let end = name_place_known(&known, &path(b"/b")?, &mut Scratch::new(), &mut room);
    assert_eq!(rt; end, Ok(2));
    assert!(rt; room.starts_with(b"/b"));
    Ok(())
}
