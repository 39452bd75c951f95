//! The live places of a path: those at which a match can be after some bytes of a name. One pass over the items
//! moves them on by a block of bytes.
ghost use Rattle.std.specs.Prelude.{◌≡◌, ◌+◌, ◌≤◌, length};
ghost use Rattle.rule_globs.specs.Glob.{places};
ghost use Rattle.rule_globs.specs.inner.Sweep.{sweep, before_each, through, pass_one, pass_run};
ghost use Rattle.rule_globs.specs.Meaning.{meaning, meaning_of, stars_glob, alternatives_meaning};
ghost use Rattle.rule_globs.specs.inner.Cursor.{pass_at};

use crate::block::Block;
use crate::items::{Item, Stars};

/// Where a pass over the items is: the number of the next place, and after which bytes of the block it is reached. Bit i of
/// such a word is of the block's byte i.
#[derive(Clone, Copy)]
pub(crate) struct Cursor {
    pub(crate) place: usize,
    pub(crate) reached: u64,
}

/// Moves the live places of the items on by a block. The items' places begin at the cursor's, and the returned cursor
/// is after them.
#[cycle(pass)]
pub(crate) fn pass_items(
    items: &[Item],
    block: &Block,
    mut cursor: Cursor,
    live: &mut [bool],
) -> Cursor
    requires { cursor.place + places (meaning_of items.now) ≤ length live.old }
    ensures { pass_at result live.new
        ≡ sweep (meaning_of items.now) block.now (pass_at cursor live.old) }
{
    for item in items {
        cursor = pass_item(item, block, cursor, live);
    }
    cursor
}

#[cycle(pass)]
fn pass_item(item: &Item, block: &Block, cursor: Cursor, live: &mut [bool]) -> Cursor
    requires { cursor.place + places (meaning item.now) ≤ length live.old }
    ensures { pass_at result live.new
        ≡ sweep (meaning item.now) block.now (pass_at cursor live.old) }
{
    match item {
        Item::Byte(wanted) => pass_one_byte(block.written(*wanted), block, cursor, live),
        Item::AnyByte => pass_one_byte(block.in_component(), block, cursor, live),
        Item::Class(class) => pass_one_byte(block.in_class(class), block, cursor, live),
        Item::Stars(stars) => pass_stars(*stars, block, cursor, live),
        Item::Group(alternatives) => pass_alternatives(alternatives, block, cursor, live),
    }
}

// Each alternative begins where the group does, and the end of the group is reached where that of one of them is.
#[cycle(pass)]
fn pass_alternatives(
    alternatives: &[Vec<Item>],
    block: &Block,
    cursor: Cursor,
    live: &mut [bool],
) -> Cursor
    requires { cursor.place + places (alternatives_meaning alternatives.now) ≤ length live.old }
    ensures { pass_at result live.new
        ≡ sweep (alternatives_meaning alternatives.now) block.now (pass_at cursor live.old) }
{
    let mut place = cursor.place;
    let mut reached = 0;
    for items in alternatives {
        let behind = pass_items(
            items,
            block,
            Cursor {
                place,
                reached: cursor.reached,
            },
            live,
        );
        place = behind.place;
        reached |= behind.reached;
    }
    Cursor { place, reached }
}

fn pass_stars(stars: Stars, block: &Block, cursor: Cursor, live: &mut [bool]) -> Cursor
    requires { cursor.place + places (stars_glob stars.crosses_slashes stars.strict)
        ≤ length live.old }
    ensures { pass_at result live.new
        ≡ sweep (stars_glob stars.crosses_slashes stars.strict) block.now (pass_at cursor live.old) }
{
    if stars.strict {
        let behind = pass_one_byte(block.in_component(), block, cursor, live);
        pass_run(block.in_stars(stars), block, behind, live)
    } else {
        pass_run(block.in_stars(stars), block, cursor, live)
    }
}

// One byte of a set, which has these bytes of the block.
fn pass_one_byte(taken: u64, block: &Block, cursor: Cursor, live: &mut [bool]) -> Cursor
    requires { cursor.place + 1 ≤ length live.old }
    ensures { pass_at result live.new ≡ pass_one (length block.now) taken (pass_at cursor live.old) }
{
    let reached = before_each(live[cursor.place], cursor.reached) & taken;
    live[cursor.place] = block.last(cursor.reached);
    Cursor {
        place: cursor.place + 1,
        reached,
    }
}

// Any number of bytes of a set, which has these bytes of the block. A run can be left as soon as it is reached.
fn pass_run(taken: u64, block: &Block, cursor: Cursor, live: &mut [bool]) -> Cursor
    requires { cursor.place + 1 ≤ length live.old }
    ensures { pass_at result live.new ≡ pass_run (length block.now) taken (pass_at cursor live.old) }
{
    let reached = through(live[cursor.place], cursor.reached, taken);
    live[cursor.place] = block.last(reached);
    Cursor {
        place: cursor.place + 1,
        reached,
    }
}

// Before which bytes a place is live that is live where it is reached: one bit up, and before the first byte as it is here.
fn before_each(here: bool, reached: u64) -> u64
    ensures { result ≡ before_each here reached }
{
    reached << 1 | u64::from(here)
}

// After which bytes a run is left: where it is reached, and as long as bytes are taken from where it is live, over which a
// carry goes in a sum.
fn through(here: bool, reached: u64, taken: u64) -> u64
    ensures { result ≡ through here reached taken }
{
    let either = reached | taken;
    let sum = reached.wrapping_add(either).wrapping_add(u64::from(here));
    reached | taken & (sum ^ reached ^ either)
}
