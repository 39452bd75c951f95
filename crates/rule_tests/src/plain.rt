//! Matching in the plainest way by live places: one pass over the items for each byte of the name.
use rule_globs::Item;

/// How deep groups are nested at most, and one more.
const MOST_LEVELS: u32 = 51;

/// Where a pass is: the number of the next place, whether it is reached after the byte.
#[derive(Clone, Copy)]
struct Cursor {
    place: usize,
    reached: bool,
}

/// Whether the items match all the bytes. `live` has a flag for each place, none of which is set.
pub(crate) fn takes(items: &[Item], bytes: &[u8], live: &mut [bool]) -> bool {
    let start = Cursor {
        place: 0,
        reached: true,
    };
    let mut taken = pass_items(items, 0, start, live, MOST_LEVELS).reached;
    for byte in bytes {
        let start = Cursor {
            place: 0,
            reached: false,
        };
        taken = pass_items(items, *byte, start, live, MOST_LEVELS).reached;
    }
    taken
}

#[cycle(plain)]
fn pass_items(
    items: &[Item],
    byte: u8,
    mut cursor: Cursor,
    live: &mut [bool],
    levels: u32,
) -> Cursor {
    for item in items {
        cursor = pass_item(item, byte, cursor, live, levels);
    }
    cursor
}

#[cycle(plain)]
fn pass_item(item: &Item, byte: u8, cursor: Cursor, live: &mut [bool], levels: u32) -> Cursor {
    let in_component = byte != 0 && byte != b'/';
    match item {
        Item::Byte(wanted) => pass_one(byte != 0 && *wanted == byte, cursor, live),
        Item::AnyByte => pass_one(in_component, cursor, live),
        Item::Class(class) => pass_one(class.takes(byte), cursor, live),
        Item::Stars(stars) => {
            let taken = stars.takes(byte);
            if stars.strict {
                pass_run(taken, pass_one(in_component, cursor, live), live)
            } else {
                pass_run(taken, cursor, live)
            }
        }
        Item::Group(_) if levels == 0 => cursor,
        Item::Group(alternatives) => pass_alternatives(
            alternatives,
            byte,
            cursor,
            live,
            levels - 1,
        ),
    }
}

#[cycle(plain)]
fn pass_alternatives(
    alternatives: &[Vec<Item>],
    byte: u8,
    cursor: Cursor,
    live: &mut [bool],
    levels: u32,
) -> Cursor {
    let mut place = cursor.place;
    let mut reached = false;
    for items in alternatives {
        let start = Cursor {
            place,
            reached: cursor.reached,
        };
        let after = pass_items(items, byte, start, live, levels);
        place = after.place;
        reached = reached || after.reached;
    }
    Cursor { place, reached }
}

fn pass_one(taken: bool, cursor: Cursor, live: &mut [bool]) -> Cursor {
    let reached = is_live(cursor, live) && taken;
    step(cursor, live, cursor.reached, reached)
}

fn pass_run(taken: bool, cursor: Cursor, live: &mut [bool]) -> Cursor {
    let reached = cursor.reached || is_live(cursor, live) && taken;
    step(cursor, live, reached, reached)
}

// Paths have fewer places than flags.
fn is_live(cursor: Cursor, live: &[bool]) -> bool {
    cursor.place < live.len() && live[cursor.place]
}

fn step(cursor: Cursor, live: &mut [bool], here: bool, reached: bool) -> Cursor {
    if cursor.place < live.len() {
        live[cursor.place] = here;
    }
    Cursor {
        place: cursor.place.saturating_add(1),
        reached,
    }
}
