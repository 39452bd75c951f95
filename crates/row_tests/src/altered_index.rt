//! Words of the index that are altered, one at a time and all at once. Whatever they are, each walk, name and look-up of a child
//! terminates, and what it finds is there: an altered index may hide an entry or be torn, and nothing else.
use crate::rows::row_of;
use crate::torn::{SMALL, set};
use directory_tree::Last;
use names::Errno;
use path_lookup::{NAME_ROOM, Scratch, Torn, WalkFault, name_of, name_of_place, resolve};
use std::process::Abort;
use std::test::Fail;
use test_parts::path;
use tree_row::{KnownRow, RowLook, find_child, index_of};

/// The row of `SMALL` has room for this many entries, and its index this many words.
const CAPACITY: usize = 3;

const WORDS: usize = 8;

/// A free word, that of a removed entry, those of slots 1 to 3 (a slot's number and one), one past the last slot, the greatest word.
/// One of them is the capacity.
const ALTERED: [u64; 7] = [0, 1, 2, 3, 4, 5, u64::MAX];

/// A path, whether a link at its end is followed, and the slot and the name of what is there.
type Place<'a> = (&'a [u8], Last, usize, &'a [u8]);

const PLACES: [Place<'static>; 7] = [
    (b"/", Last::Follow, 0, b"/"),
    (b"/a", Last::Follow, 1, b"/a/"),
    (b"/a/f", Last::Follow, 2, b"/a/f"),
    (b"/l", Last::Stay, 3, b"/l"),
    (b"/l", Last::Follow, 2, b"/a/f"),
    (b"/a/../a/.", Last::Follow, 1, b"/a/"),
    (b"/a/.././l", Last::Stay, 3, b"/l"),
];

/// Paths to nothing.
const NOWHERE: [&[u8]; 4] = [b"/f", b"/x", b"/a/a", b"/a/../f"];

/// Components of entries, and of none.
const COMPONENTS: [&[u8]; 4] = [b"a", b"f", b"l", b"x"];

// Whether a walk finds the entry of a place, with its name, or no entry.
fn leads_there_or_nowhere(look: &mut RowLook<KnownRow>, place: Place<'_>) -> Result<bool, Fail> {
    let (text, last, slot, name) = place;
    match resolve(look, &path(text)?, last, &mut Scratch::new()) {
        Ok(entry) => {
            let mut room = [0; NAME_ROOM];
            match name_of(look, entry, &mut room) {
                Ok(length) => Ok(entry.slot() == slot && &room[..length] == name),
                Err(_) => Ok(false),
            }
        }
        Err(fault) => Ok(is_hidden(fault)),
    }
}

// Whether an entry is hidden, or the index is torn.
fn is_hidden(fault: WalkFault) -> bool {
    matches!(fault, WalkFault::Refused(Errno::ENOENT) | WalkFault::Torn)
}

// Whether each place is found or hidden, and nothing is found elsewhere.
fn walks_find_what_is_there(look: &mut RowLook<KnownRow>) -> Result<bool, Fail> {
    for place in PLACES {
        if !leads_there_or_nowhere(look, place)? {
            return Ok(false);
        }
    }
    for text in NOWHERE {
        match resolve(look, &path(text)?, Last::Follow, &mut Scratch::new()) {
            Err(fault) if is_hidden(fault) => {}
            _ => return Ok(false),
        }
    }
    Ok(true)
}

// Whether the place of an entry that isn't there has its name, or the way to it is hidden.
fn names_the_place(look: &mut RowLook<KnownRow>) -> Result<bool, Fail> {
    let mut room = [0; NAME_ROOM];
    let named = name_of_place(look, &path(b"/a/../a/x")?, &mut Scratch::new(), &mut room);
    Ok(match named {
        Ok(length) => &room[..length] == b"/a/x".as_slice(),
        Err(fault) => is_hidden(fault),
    })
}

// Whether this slot holds the entry of a component in the directory of a slot.
fn holds(number: usize, directory: usize, component: &[u8]) -> bool {
    for slot in &SMALL {
        if slot.number == number {
            return slot.parent == directory as u64 && slot.component == component;
        }
    }
    false
}

// Whether a look-up finds the entry of a component in the directory of a slot, or none.
fn finds_child_or_none(row: &mut KnownRow, directory: usize, component: &[u8]) -> bool {
    if directory > row.capacity() {
        return false;
    }
    match find_child(row, directory, component) {
        Ok(Some(slot)) => holds(slot, directory, component),
        Ok(None) | Err(Torn) => true,
    }
}

fn look_ups_find_children(row: &mut KnownRow) -> bool {
    for directory in 0..CAPACITY + 1 {
        for component in COMPONENTS {
            if !finds_child_or_none(row, directory, component) {
                return false;
            }
        }
    }
    true
}

// The row of `SMALL` with these words in its index, of which each walk and look-up terminates.
fn expect_sound(rt: &impl Abort, row: KnownRow, index: &[u64; WORDS]) -> Result<KnownRow, Fail> {
    let mut row = row;
    let base = index_of(CAPACITY).base;
    for (at, word) in index.iter().enumerate() {
        set(&mut row, base.wrapping_add(at), *word);
    }
    let found = look_ups_find_children(&mut row);
    let mut look = RowLook::new(row);
    let walked = walks_find_what_is_there(&mut look)? && names_the_place(&mut look)?;
    assert!(rt; found && walked, "{index:?}");
    Ok(look.into_cells())
}

// The index of the row.
fn index_words(row: &KnownRow) -> [u64; WORDS] {
    let base = index_of(CAPACITY).base;
    let mut words = [0; WORDS];
    for (at, word) in words.iter_mut().enumerate() {
        let place = base.wrapping_add(at);
        if place < row.length() {
            *word = row.cell(place);
        }
    }
    words
}

#[test]
fn each_word_of_the_index_is_altered(rt: HostRuntime) -> Result<(), Fail> {
    let mut row = row_of(rt.alloc(), CAPACITY, &SMALL)?;
    let whole = index_words(&row);
    assert_eq!(rt; index_of(CAPACITY).length, WORDS);
    for at in 0..WORDS {
        for word in ALTERED {
            let mut index = whole;
            index[at] = word;
            row = expect_sound(&rt, row, &index)?;
        }
    }
    Ok(())
}

#[test]
fn every_word_of_the_index_is_altered(rt: HostRuntime) -> Result<(), Fail> {
    let mut row = row_of(rt.alloc(), CAPACITY, &SMALL)?;
    for word in ALTERED {
        row = expect_sound(&rt, row, &[word; WORDS])?;
    }
    Ok(())
}

// The index with another word in place of each 0.
fn without_a_zero(whole: &[u64; WORDS], word: u64) -> [u64; WORDS] {
    let mut index = *whole;
    for at in 0..WORDS {
        if index[at] == 0 {
            index[at] = word;
        }
    }
    index
}

#[test]
fn an_index_has_no_zero(rt: HostRuntime) -> Result<(), Fail> {
    let mut row = row_of(rt.alloc(), CAPACITY, &SMALL)?;
    let whole = index_words(&row);
    for word in &ALTERED[1..] {
        row = expect_sound(&rt, row, &without_a_zero(&whole, *word))?;
    }
    // Each other word altered, too, one at a time.
    for at in 0..WORDS {
        for word in &ALTERED[1..] {
            let mut index = without_a_zero(&whole, 1);
            index[at] = *word;
            row = expect_sound(&rt, row, &index)?;
        }
    }
    Ok(())
}
