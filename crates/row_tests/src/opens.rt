//! The walk of one open, which continues from the words that it has read.
use crate::rows::{SLOTS, Slot, row_of};
use names::{Errno, Perms};
use open_session::{Lack, Outcome, WalkWords, reach_on};
use path_lookup::Scratch;
use row_rule::Cell;
use std::alloc::Global;
use std::test::Fail;
use tree_row::KnownRow;

// A path, how many words an open of it needs, and the name and the node of the file that it reaches. In addition to what the walk
// and the name need, the word of the node is read, except for the root.
type Open<'a> = (&'a [u8], usize, Result<(&'a [u8], u64), Errno>);

const OPENS: [Open<'static>; 5] = [
    (b"/", 0, Ok((b"/", 1))),
    (b"/a_long_directory", 7, Ok((b"/a_long_directory/", 2))),
    (
        b"/a_long_directory/file.of.17.bytes.",
        14,
        Ok((b"/a_long_directory/file.of.17.bytes.", 3)),
    ),
    (b"/x", 4, Err(Errno::ENOENT)),
    (b"/ring", 10, Err(Errno::ELOOP)),
];

// Whether the open, which reads at most `most` words at a time, ends as listed, after the listed number of words.
fn comes(alloc: Global, row: &KnownRow, open: &Open, most: usize) -> Result<bool, Fail> {
    let (text, needed, want) = open;
    let ask = Perms::from_letters(b"r").ok_or("letters")?;
    let mut words = WalkWords::new(alloc, 8);
    let mut scratch = Scratch::new();
    let mut room = [0; 4096];
    for _ in 0..row.length() {
        if words.capacity() != row.capacity() {
            return Ok(false);
        }
        let before = words.count();
        let came = reach_on(words, row, most, text, ask, &mut scratch, &mut room);
        words = came.words;
        let read = words.count();
        match came.end {
            Ok(Outcome::Reached(file)) => {
                let name = &room[..file.name_length];
                return Ok(read == *needed && Ok((name, file.node)) == *want);
            }
            Ok(Outcome::Refused(errno)) => return Ok(read == *needed && Err(errno) == *want),
            Err(Lack::Wants(place)) => {
                if read.checked_sub(before) != Some(most)
                    || place >= row.length()
                    || words.word(place).is_some()
                {
                    return Ok(false);
                }
            }
            Ok(Outcome::Torn) | Err(Lack::NoMemory(_)) => return Ok(false),
        }
    }
    Ok(false)
}

#[test]
fn an_open_goes_on_from_its_words(rt: HostRuntime) -> Result<(), Fail> {
    let row = row_of(rt.alloc(), 8, &SLOTS)?;
    for open in &OPENS {
        for most in 1..20 {
            assert!(rt; comes(rt.alloc(), &row, open, most)?, "{open:?} {most}");
        }
    }
    Ok(())
}

#[test]
fn words_are_kept_with_their_places(rt: HostRuntime) -> Result<(), Fail> {
    let mut words = WalkWords::new(rt.alloc(), 8);
    assert_eq!(rt; words.capacity(), 8);
    assert_eq!(rt; words.count(), 0);
    assert_eq!(rt; words.word(164), None);
    let cell = Cell {
        place: 164,
        word: 2,
    };
    words.read(cell).ok().ok_or("memory")?;
    assert_eq!(rt; words.count(), 1);
    assert_eq!(rt; words.word(164), Some(2));
    assert_eq!(rt; words.word(165), None);
    Ok(())
}

#[test]
fn an_open_at_fault_needs_no_word(rt: HostRuntime) -> Result<(), Fail> {
    let row = row_of(rt.alloc(), 8, &SLOTS)?;
    let cases: [(&[u8], &[u8], Errno); 4] = [
        (b"/x", b"", Errno::EINVAL),
        (b"/x", b"rl", Errno::EINVAL),
        (b"x", b"r", Errno::EINVAL),
        (b"", b"r", Errno::ENOENT),
    ];
    let mut scratch = Scratch::new();
    let mut room = [0; 4096];
    for (text, letters, errno) in cases {
        let ask = Perms::from_letters(letters).ok_or("letters")?;
        let words = WalkWords::new(rt.alloc(), row.capacity());
        let came = reach_on(words, &row, 100, text, ask, &mut scratch, &mut room);
        assert_eq!(rt; came.words.count(), 0);
        assert_eq!(rt; came.end, Ok(Outcome::Refused(errno)));
    }
    Ok(())
}

#[test]
fn no_word_is_read_where_none_may_be(rt: HostRuntime) -> Result<(), Fail> {
    let row = row_of(rt.alloc(), 8, &SLOTS)?;
    let ask = Perms::from_letters(b"r").ok_or("letters")?;
    let words = WalkWords::new(rt.alloc(), row.capacity());
    let mut room = [0; 4096];
    let came = reach_on(words, &row, 0, b"/x", ask, &mut Scratch::new(), &mut room);
    assert_eq!(rt; came.words.count(), 0);
    // The word of the index at the home of `x`; the nine slots end at 1,476.
    assert_eq!(rt; came.end, Err(Lack::Wants(1476 + 8)));
    Ok(())
}

#[test]
fn words_may_be_those_of_no_tree(rt: HostRuntime) -> Result<(), Fail> {
    // A slot in use, of an invalid kind.
    let slot = Slot {
        number: 1,
        kind: 4,
        node: 2,
        parent: 0,
        component: b"a",
        text: b"",
    };
    let row = row_of(rt.alloc(), 1, &[slot])?;
    let ask = Perms::from_letters(b"r").ok_or("letters")?;
    let words = WalkWords::new(rt.alloc(), row.capacity());
    let mut room = [0; 4096];
    let came = reach_on(words, &row, 100, b"/a", ask, &mut Scratch::new(), &mut room);
    assert_eq!(rt; came.end, Ok(Outcome::Torn));
    Ok(())
}
