//! Words of the index that no tree's row has. A search reads each of them at most once, so it ends.
use crate::rows::{home_place, row_of};
use crate::torn::{SMALL, set};
use directory_tree::Last;
use names::Errno;
use path_lookup::{Scratch, WalkFault, resolve};
use std::process::Abort;
use std::test::Fail;
use test_parts::path;
use tree_row::{KnownRow, RowLook};

const ABSENT: Result<usize, WalkFault> = Err(WalkFault::Refused(Errno::ENOENT));

const TORN: Result<usize, WalkFault> = Err(WalkFault::Torn);

// The eight words of the index, a path, and the slot that it leads to, or why there is none.
type Torn<'a> = ([u64; 8], &'a [u8], Result<usize, WalkFault>);

// In the row of `SMALL`, which has room for 3 entries, the searches for `/a`, `/l` and `/a/f` begin at the words 1, 4 and 5. Slot 1
// is named by the word 2, and so on.
const WHOLE: [u64; 8] = [0, 2, 0, 0, 4, 3, 0, 0];

const MOST: u64 = u64::MAX;

const NO_WORD_IS_FREE: [Torn<'static>; 8] = [
    // Each word is that of a removed entry.
    ([1; 8], b"/a", ABSENT),
    ([1; 8], b"/l", ABSENT),
    // Each word names one slot.
    ([2; 8], b"/a", Ok(1)),
    ([2; 8], b"/l", ABSENT),
    ([2; 8], b"/a/f", ABSENT),
    // The last word that is read: the one before the home.
    ([2, 1, 1, 1, 1, 1, 1, 1], b"/a", Ok(1)),
    ([4, 4, 3, 3, 2, 2, 3, 3], b"/a", Ok(1)),
    ([1, 1, 1, 4, 1, 1, 1, 1], b"/l", Ok(3)),
];

const PAST_THE_SLOTS: [Torn<'static>; 8] = [
    // A slot past the last one, which is slot 3.
    ([0, 5, 0, 0, 4, 3, 0, 0], b"/a", TORN),
    ([0, MOST, 0, 0, 4, 3, 0, 0], b"/a", TORN),
    ([0, 0x1_0000_0002, 0, 0, 4, 3, 0, 0], b"/a", TORN),
    ([0, 4, 5, 0, 4, 3, 0, 0], b"/a", TORN),
    ([0, 2, 0, 0, 4, MOST, 0, 0], b"/a/f", TORN),
    // The search ends before it.
    ([MOST, 2, 5, 5, 4, 3, 5, MOST], b"/a", Ok(1)),
    ([MOST, 0, 5, 5, 5, MOST, 5, MOST], b"/a", ABSENT),
    ([MOST, 2, 5, 5, 4, 3, 5, MOST], b"/a/f", Ok(2)),
];

const ELSEWHERE: [Torn<'static>; 9] = [
    // A slot is named twice.
    ([0, 2, 2, 0, 4, 3, 0, 0], b"/a", Ok(1)),
    ([0, 2, 0, 0, 4, 4, 3, 0], b"/l", Ok(3)),
    ([0, 2, 0, 0, 4, 4, 3, 0], b"/a/f", Ok(2)),
    // A slot's word follows one that is free, or is before its home.
    ([0, 0, 2, 0, 4, 3, 0, 0], b"/a", ABSENT),
    ([2, 0, 0, 0, 4, 3, 0, 0], b"/a", ABSENT),
    ([0, 2, 0, 0, 4, 1, 0, 3], b"/a/f", ABSENT),
    // It follows that of a removed entry, or of another one.
    ([0, 1, 2, 0, 4, 3, 0, 0], b"/a", Ok(1)),
    ([0, 3, 4, 2, 4, 3, 0, 0], b"/a", Ok(1)),
    ([0, 2, 0, 0, 2, 1, 4, 0], b"/l", Ok(3)),
];

fn expect_all(rt: &impl Abort, row: KnownRow, cases: &[Torn]) -> Result<KnownRow, Fail> {
    let mut row = row;
    for (words, text, want) in cases {
        row = expect(rt, row, words, text, *want)?;
    }
    Ok(row)
}

fn expect(
    rt: &impl Abort,
    row: KnownRow,
    words: &[u64; 8],
    text: &[u8],
    want: Result<usize, WalkFault>,
) -> Result<KnownRow, Fail> {
    let mut row = row;
    let base = row.length().saturating_sub(8);
    for (index, word) in words.iter().enumerate() {
        set(&mut row, base.wrapping_add(index), *word);
    }
    let mut look = RowLook::new(row);
    let end = resolve(&mut look, &path(text)?, Last::Stay, &mut Scratch::new());
    assert_eq!(rt; end.map(|entry| entry.slot()), want, "{words:?}");
    Ok(look.into_cells())
}

#[test]
fn searches_begin_at_the_homes(rt: HostRuntime) -> Result<(), Fail> {
    let row = row_of(rt.alloc(), 3, &SMALL)?;
    // Four slots, and twice as many words as entries, rounded up to a power of two.
    assert_eq!(rt; row.length(), 656 + 8);
    let homes: [(u64, &[u8], usize); 3] = [(0, b"a", 657), (1, b"f", 661), (0, b"l", 660)];
    for (parent, component, place) in homes {
        assert_eq!(rt; home_place(&row, parent, component)?, place);
    }
    let whole = [
        (WHOLE, b"/a".as_slice(), Ok(1)),
        (WHOLE, b"/a/f", Ok(2)),
        (WHOLE, b"/l", Ok(3)),
        (WHOLE, b"/f", ABSENT),
    ];
    expect_all(&rt, row, &whole)?;
    Ok(())
}

#[test]
fn no_word_is_free(rt: HostRuntime) -> Result<(), Fail> {
    expect_all(&rt, row_of(rt.alloc(), 3, &SMALL)?, &NO_WORD_IS_FREE)?;
    Ok(())
}

#[test]
fn slots_past_the_last_one_are_named(rt: HostRuntime) -> Result<(), Fail> {
    expect_all(&rt, row_of(rt.alloc(), 3, &SMALL)?, &PAST_THE_SLOTS)?;
    Ok(())
}

#[test]
fn slots_are_named_elsewhere(rt: HostRuntime) -> Result<(), Fail> {
    expect_all(&rt, row_of(rt.alloc(), 3, &SMALL)?, &ELSEWHERE)?;
    Ok(())
}
