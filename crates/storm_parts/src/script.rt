//! The changes that a keeper tries.
ghost use Rattle.std.specs.Prelude.{◌≡◌, ◌≤◌, ◌<◌};

use plain_tree::PlainTree;
use std::alloc::{AllocError, Global};
use test_parts::{DrawnChange, Random};

// A plain tree would make one in ten or less of the changes that are drawn at random. So that most are made, it is asked about up
// to this many.
const DRAWS: usize = 16;

/// Draws `changes` changes, most of which a keeper can make one after the other.
pub fn draw_script(
    alloc: Global,
    capacity: usize,
    changes: usize,
) -> Result<Vec<DrawnChange>, AllocError> {
    let Ok(mut tree) = PlainTree::new(alloc, capacity) else {
        return Err(AllocError);
    };
    let mut random = Random::new(1 << 20);
    let mut script = Vec::new(alloc);
    for _ in 0..changes {
        let drawn = draw(&mut tree, &mut random);
        if let Some(change) = drawn.change() {
            let _ = tree.apply(&change);
        }
        script.push(drawn)?;
    }
    Ok(script)
}

// A change that the tree would make, or the last of those that it wouldn't.
fn draw(tree: &mut PlainTree, random: &mut Random) -> DrawnChange {
    let mut drawn = random.change();
    for _ in 1..DRAWS {
        if would_make(tree, &drawn) {
            break;
        }
        drawn = random.change();
    }
    drawn
}

fn would_make(tree: &mut PlainTree, drawn: &DrawnChange) -> bool {
    match drawn.change() {
        Some(change) => tree.test(&change).is_ok(),
        None => false,
    }
}
